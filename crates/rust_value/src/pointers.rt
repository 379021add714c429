//! The heads of pointers. Out of memory, what stood before stays in front.
ghost use Rattle.std.specs.Prelude.{◌≡◌, ◌++◌, OnOk, OnErr, codes, decimal, length, take};
ghost use Rattle.names.specs.Pointers.{kind_text};
ghost use Rattle.rust_value.specs.Texts.{address_text, fat_text};

use names::PtrKind;
use rv_io::{Buf, Memory};

/// A kind, as it stands before what it is the kind of.
fn kind_head(kind: PtrKind) -> &'static [u8]
    ensures { result.now ≡ kind_text kind }
{
    match kind {
        PtrKind::Ref => b"&",
        PtrKind::RefMut => b"&mut ",
        PtrKind::Const => b"*const ",
        PtrKind::Mut => b"*mut ",
        PtrKind::Boxed => b"box ",
    }
}

/// Appends a pointer of one word.
pub(crate) fn put_thin(kind: PtrKind, at: u64, out: &mut Buf) -> Result<(), Memory>
    ensures appended { OnOk result (out.new ≡ out.old ++ (kind_text kind ++ address_text at)) }
    ensures front { OnErr result (take (length out.old) out.new ≡ out.old) }
{
    out.put(kind_head(kind))?;
    out.put_hex(at)
}

/// Appends a pointer with a length, whose shape has a word.
pub(crate) fn put_counted(
    kind: PtrKind,
    shape: &[u8],
    at: u64,
    len: u64,
    out: &mut Buf,
) -> Result<(), Memory>
    ensures appended { OnOk result (out.new ≡ out.old ++ fat_text (kind_text kind) shape.now at (decimal len)) }
    ensures front { OnErr result (take (length out.old) out.new ≡ out.old) }
{
    put_fat(kind, shape, at, out)?;
    out.put_decimal(u128::from(len))?;
    out.put(b"]")
}

/// Appends a pointer with a vtable.
pub(crate) fn put_dyn(kind: PtrKind, at: u64, vtable: u64, out: &mut Buf) -> Result<(), Memory>
    ensures appended { OnOk result (out.new ≡ out.old ++ fat_text (kind_text kind) (codes "dyn") at (address_text vtable)) }
    ensures front { OnErr result (take (length out.old) out.new ≡ out.old) }
{
    put_fat(kind, b"dyn", at, out)?;
    out.put_hex(vtable)?;
    out.put(b"]")
}

/// Appends a pointer of two words up to the second.
fn put_fat(kind: PtrKind, shape: &[u8], at: u64, out: &mut Buf) -> Result<(), Memory>
    ensures appended { OnOk result (out.new ≡ out.old ++ (kind_text kind ++ shape.now ++ codes "[" ++ address_text at ++ codes "; ")) }
    ensures front { OnErr result (take (length out.old) out.new ≡ out.old) }
{
    out.put(kind_head(kind))?;
    out.put(shape)?;
    out.put(b"[")?;
    out.put_hex(at)?;
    out.put(b"; ")
}

//! What a name is made over, and the texts around it.
ghost use Rattle.std.specs.Prelude.{◌≡◌, ◌++◌, length, take, OnOk, OnErr};
ghost use Rattle.layout_derived.specs.DerivedTexts.{opening, closing, count_text, before, after, step_of_def, step_of};

use layout_set::{TypeDef, TypeRef};
use names::PtrKind;
use rv_io::{Buf, Memory};

/// What stands around a name: the texts of a pointer of this kind, or those of an array of this count.
#[derive(Clone, Copy)]
pub(crate) enum Around {
    Pointer(PtrKind),
    Array(u64),
}

/// What a type leads to, and what its name has around the name of that.
#[derive(Clone, Copy)]
pub(crate) struct Step {
    pub(crate) to: TypeRef,
    pub(crate) around: Around,
}

/// The step from what is referred to, unless it has a name of its own or isn't there.
pub(crate) fn step_of(types: &[TypeDef], ty: TypeRef) -> Option<Step>
    ensures { result ≡ step_of types.now ty }
{
    let TypeRef::User(i) = ty else {
        return None;
    };
    match types.get(i as usize) {
        None => None,
        Some(def) => step_of_def(def),
    }
}

/// The step from a type, unless it has a name of its own.
fn step_of_def(def: &TypeDef) -> Option<Step>
    ensures { result ≡ step_of_def def.now }
{
    match def {
        TypeDef::Thin { kind, to } => Some(Step {
            to: *to,
            around: Around::Pointer(*kind),
        }),
        TypeDef::Array { elem, count } => Some(Step {
            to: *elem,
            around: Around::Array(*count),
        }),
        _ => None,
    }
}

/// The text before the name.
pub(crate) fn before(around: Around) -> &'static [u8]
    ensures { result.now ≡ before around }
{
    match around {
        Around::Pointer(kind) => opening(kind),
        Around::Array(_) => b"[",
    }
}

/// Appends the text after the name. Out of memory, what stood before stays in front.
pub(crate) fn put_after(around: Around, out: &mut Buf) -> Result<(), Memory>
    ensures put { OnOk result (out.new ≡ out.old ++ after around) }
    ensures front { OnErr result (take (length out.old) out.new ≡ out.old) }
{
    match around {
        Around::Pointer(kind) => out.put(closing(kind)),
        Around::Array(count) => put_count(count, out),
    }
}

/// The text of a pointer up to what it leads to.
fn opening(kind: PtrKind) -> &'static [u8]
    ensures { result.now ≡ opening kind }
{
    match kind {
        PtrKind::Ref => b"&",
        PtrKind::RefMut => b"&mut ",
        PtrKind::Const => b"*const ",
        PtrKind::Mut => b"*mut ",
        PtrKind::Boxed => b"alloc::boxed::Box<",
    }
}

/// The text of a pointer after what it leads to.
fn closing(kind: PtrKind) -> &'static [u8]
    ensures { result.now ≡ closing kind }
{
    match kind {
        PtrKind::Boxed => b", alloc::alloc::Global>",
        PtrKind::Ref | PtrKind::RefMut | PtrKind::Const | PtrKind::Mut => b"",
    }
}

/// Appends the text of an array after its element.
fn put_count(count: u64, out: &mut Buf) -> Result<(), Memory>
    ensures put { OnOk result (out.new ≡ out.old ++ count_text count) }
    ensures front { OnErr result (take (length out.old) out.new ≡ out.old) }
{
    out.put(b"; ")?;
    out.put_decimal(u128::from(count))?;
    out.put(b"]")
}

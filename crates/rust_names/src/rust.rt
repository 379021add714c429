//! Names in the spelling of Rust, written.
ghost use Rattle.std.specs.Prelude.{◌≡◌, ◌++◌, map, length, take, OnOk, OnErr, codes, decimal};
ghost use Rattle.rust_names.specs.RustText.{rust_text, seg_text, args_text, word_text, result_text, dyn_text, is_empty_tuple};
ghost use Rattle.names.specs.Pointers.{kind_text};
ghost use Rattle.names.specs.Joined.{joined};

use names::{Name, PtrKind, Seg, Word, put_signed};
use rv_io::{Buf, Memory};

/// Appends the Rust spelling of a name. Out of memory, the buffer is as before.
pub fn rust_spelling(name: &Name, out: &mut Buf) -> Result<(), Memory>
    // The text is appended.
    ensures put { OnOk result (out.new ≡ out.old ++ rust_text name.now) }

    // Out of memory, nothing has changed.
    ensures same { OnErr result (out.new ≡ out.old) }
{
    let len = out.as_bytes().len();
    match put_name(name, out) {
        Ok(()) => Ok(()),
        Err(memory) => {
            out.truncate(len);
            Err(memory)
        }
    }
}

/// Appends the text of a name. Out of memory, what stood before stays in front, as in each call below.
#[cycle(spell)]
#[tactic(auto, using(crate::proofs::RustLevels::levels))]
fn put_name(name: &Name, out: &mut Buf) -> Result<(), Memory>
    ensures put { OnOk result (out.new ≡ out.old ++ rust_text name.now) }
    ensures front { OnErr result (take (length out.old) out.new ≡ out.old) }
{
    match name {
        Name::Path(segs) => put_segs(segs.as_slice(), out),
        Name::Pointer(kind, to) => put_pointer(*kind, to.get(), out),
        Name::Slice(item) => put_slice(item.get(), out),
        Name::Array(item, count) => put_array(item.get(), *count, out),
        Name::Tuple(parts) => put_tuple(parts.as_slice(), out),
        Name::Str => out.put(b"str"),
        Name::Dyn(members) => put_dyn(members.as_slice(), out),
        Name::Fn(params, to) => {
            put_params(params.as_slice(), out)?;
            put_result(to.get(), out)
        }
        Name::Number(minus, number) => put_signed(*minus, *number, out),
        Name::Bind(word, to) => put_bind(word, to.get(), out),
        Name::Raw(text) => out.put(text.as_bytes()),
    }
}

/// Appends `&X`, `&mut X`, `*const X` or `*mut X`.
#[cycle(spell)]
fn put_pointer(kind: PtrKind, to: &Name, out: &mut Buf) -> Result<(), Memory>
    ensures put { OnOk result (out.new ≡ out.old ++ (kind_text kind ++ rust_text to.now)) }
    ensures front { OnErr result (take (length out.old) out.new ≡ out.old) }
{
    put_kind(kind, out)?;
    put_name(to, out)
}

/// Appends `[X]`.
#[cycle(spell)]
fn put_slice(item: &Name, out: &mut Buf) -> Result<(), Memory>
    ensures put { OnOk result (out.new ≡ out.old ++ (codes "[" ++ rust_text item.now ++ codes "]")) }
    ensures front { OnErr result (take (length out.old) out.new ≡ out.old) }
{
    out.put(b"[")?;
    put_name(item, out)?;
    out.put(b"]")
}

/// Appends `[X; n]`.
#[cycle(spell)]
fn put_array(item: &Name, count: u64, out: &mut Buf) -> Result<(), Memory>
    ensures put { OnOk result (out.new ≡ out.old ++ (codes "[" ++ rust_text item.now ++ codes "; " ++ decimal count ++ codes "]")) }
    ensures front { OnErr result (take (length out.old) out.new ≡ out.old) }
{
    out.put(b"[")?;
    put_name(item, out)?;
    out.put(b"; ")?;
    out.put_decimal(u128::from(count))?;
    out.put(b"]")
}

/// Appends `(X, Y)`.
#[cycle(spell)]
fn put_tuple(parts: &[Name], out: &mut Buf) -> Result<(), Memory>
    ensures put { OnOk result (out.new ≡ out.old ++ (codes "(" ++ joined (codes ", ") (map rust_text parts.now) ++ codes ")")) }
    ensures front { OnErr result (take (length out.old) out.new ≡ out.old) }
{
    out.put(b"(")?;
    put_names(parts, b", ", out)?;
    out.put(b")")
}

/// Appends what stands before the name that a pointer points to.
fn put_kind(kind: PtrKind, out: &mut Buf) -> Result<(), Memory>
    ensures put { OnOk result (out.new ≡ out.old ++ kind_text kind) }
    ensures front { OnErr result (take (length out.old) out.new ≡ out.old) }
{
    match kind {
        PtrKind::Ref => out.put(b"&"),
        PtrKind::RefMut => out.put(b"&mut "),
        PtrKind::Const => out.put(b"*const "),
        PtrKind::Mut => out.put(b"*mut "),
        PtrKind::Boxed => out.put(b"box "),
    }
}

/// Appends `dyn A`, or `(dyn A + B)` where there is more than one member.
#[cycle(spell)]
fn put_dyn(members: &[Name], out: &mut Buf) -> Result<(), Memory>
    ensures put { OnOk result (out.new ≡ out.old ++ dyn_text (map rust_text members.now)) }
    ensures front { OnErr result (take (length out.old) out.new ≡ out.old) }
{
    if members.len() < 2 {
        out.put(b"dyn ")?;
        return put_names(members, b" + ", out);
    }
    out.put(b"(dyn ")?;
    put_names(members, b" + ", out)?;
    out.put(b")")
}

/// Appends `fn(X, Y)`.
#[cycle(spell)]
fn put_params(params: &[Name], out: &mut Buf) -> Result<(), Memory>
    ensures put { OnOk result (out.new ≡ out.old ++ (codes "fn(" ++ joined (codes ", ") (map rust_text params.now) ++ codes ")")) }
    ensures front { OnErr result (take (length out.old) out.new ≡ out.old) }
{
    out.put(b"fn(")?;
    put_names(params, b", ", out)?;
    out.put(b")")
}

/// Appends `WORD=X`.
#[cycle(spell)]
fn put_bind(word: &Word, to: &Name, out: &mut Buf) -> Result<(), Memory>
    ensures put { OnOk result (out.new ≡ out.old ++ (word.now ++ codes "=" ++ rust_text to.now)) }
    ensures front { OnErr result (take (length out.old) out.new ≡ out.old) }
{
    out.put(word.as_bytes())?;
    out.put(b"=")?;
    put_name(to, out)
}

/// Appends ` -> R`, or nothing where the result is `()`.
#[cycle(spell)]
fn put_result(to: &Name, out: &mut Buf) -> Result<(), Memory>
    ensures put { OnOk result (out.new ≡ out.old ++ result_text to.now (rust_text to.now)) }
    ensures front { OnErr result (take (length out.old) out.new ≡ out.old) }
{
    if is_empty_tuple(to) {
        return Ok(());
    }
    out.put(b" -> ")?;
    put_name(to, out)
}

/// Whether the name is `()`.
fn is_empty_tuple(name: &Name) -> bool
    ensures { result ≡ is_empty_tuple name.now }
{
    match name {
        Name::Tuple(parts) => parts.as_slice().is_empty(),
        _ => false,
    }
}

/// Appends a segment with its args.
#[cycle(spell)]
#[tactic(auto, using(crate::proofs::RustLevels::levels))]
fn put_seg(seg: &Seg, out: &mut Buf) -> Result<(), Memory>
    ensures put { OnOk result (out.new ≡ out.old ++ seg_text seg.now) }
    ensures front { OnErr result (take (length out.old) out.new ≡ out.old) }
{
    put_word(&seg.word, seg.number, out)?;
    put_args(seg.args.as_slice(), out)
}

/// Appends `WORD`, or `{WORD#n}` where the segment has a number.
fn put_word(word: &Word, number: Option<u32>, out: &mut Buf) -> Result<(), Memory>
    ensures put { OnOk result (out.new ≡ out.old ++ word_text word.now number) }
    ensures front { OnErr result (take (length out.old) out.new ≡ out.old) }
{
    match number {
        None => out.put(word.as_bytes()),
        Some(number) => {
            out.put(b"{")?;
            out.put(word.as_bytes())?;
            out.put(b"#")?;
            out.put_decimal(u128::from(number))?;
            out.put(b"}")
        }
    }
}

/// Appends `<X, Y>`, or nothing where there are no args.
#[cycle(spell)]
fn put_args(args: &[Name], out: &mut Buf) -> Result<(), Memory>
    ensures put { OnOk result (out.new ≡ out.old ++ args_text (map rust_text args.now)) }
    ensures front { OnErr result (take (length out.old) out.new ≡ out.old) }
{
    if args.is_empty() {
        return Ok(());
    }
    out.put(b"<")?;
    put_names(args, b", ", out)?;
    out.put(b">")
}

/// Appends the segments of a path, with `::` between each two.
#[cycle(spell)]
fn put_segs(segs: &[Seg], out: &mut Buf) -> Result<(), Memory>
    ensures put { OnOk result (out.new ≡ out.old ++ joined (codes "::") (map seg_text segs.now)) }
    ensures front { OnErr result (take (length out.old) out.new ≡ out.old) }
{
    for (i, seg) in segs.iter().enumerate() {
        if i > 0 {
            out.put(b"::")?;
        }
        put_seg(seg, out)?;
    }
    Ok(())
}

/// Appends the names, with `between` between each two.
#[cycle(spell)]
fn put_names(names: &[Name], between: &[u8], out: &mut Buf) -> Result<(), Memory>
    ensures put { OnOk result (out.new ≡ out.old ++ joined between.now (map rust_text names.now)) }
    ensures front { OnErr result (take (length out.old) out.new ≡ out.old) }
{
    for (i, name) in names.iter().enumerate() {
        if i > 0 {
            out.put(between)?;
        }
        put_name(name, out)?;
    }
    Ok(())
}

//! Names in the spelling of CodeView, written.
ghost use Rattle.std.specs.Prelude.{◌≡◌, ◌++◌, ◌∷◌, ◌<◌, flat_map, map, length, take, OnOk, OnErr, codes, decimal};
ghost use Rattle.names.specs.Joined.{joined};
ghost use Rattle.cv_names.specs.CvText.{cv_text, cv_seg_text, cv_kind_text, cv_word_text, cv_args_text, closed, ends_closed};

use names::{Name, PtrKind, Seg, Word, put_signed};
use rv_io::{Buf, Memory};

/// Appends the CodeView spelling of a name. Out of memory, the buffer is as before.
pub fn cv_spelling(name: &Name, out: &mut Buf) -> Result<(), Memory>
    // The text is appended.
    ensures put { OnOk result (out.new ≡ out.old ++ cv_text name.now) }

    // Out of memory, nothing has changed.
    ensures same { OnErr result (out.new ≡ out.old) }
{
    let len = out.as_bytes().len();
    match put_cv_name(name, out) {
        Ok(()) => Ok(()),
        Err(memory) => {
            out.truncate(len);
            Err(memory)
        }
    }
}

/// Appends the text of a name. Out of memory, what stood before stays in front, as in each call below.
#[cycle(cv_spell)]
#[tactic(auto, using(crate::proofs::CvLevels::levels))]
fn put_cv_name(name: &Name, out: &mut Buf) -> Result<(), Memory>
    ensures put { OnOk result (out.new ≡ out.old ++ cv_text name.now) }
    ensures front { OnErr result (take (length out.old) out.new ≡ out.old) }
{
    match name {
        Name::Path(segs) => put_cv_segs(segs.as_slice(), out),
        Name::Pointer(kind, to) => put_cv_pointer(*kind, to.get(), out),
        Name::Slice(item) => put_cv_slice(item.get(), out),
        Name::Array(item, count) => put_cv_array(item.get(), *count, out),
        Name::Tuple(parts) => put_cv_list(b"tuple$<", parts.as_slice(), out),
        Name::Str => out.put(b"str$"),
        Name::Dyn(members) => put_cv_list(b"dyn$<", members.as_slice(), out),
        Name::Fn(params, to) => {
            put_cv_result(to.get(), out)?;
            put_cv_params(params.as_slice(), out)
        }
        Name::Number(minus, number) => put_signed(*minus, *number, out),
        Name::Bind(word, to) => put_cv_bind(word, to.get(), out),
        Name::Raw(text) => out.put(text.as_bytes()),
    }
}

/// Puts the closing `>`, after a space where the text before ends with `>`.
fn put_closing(out: &mut Buf) -> Result<(), Memory>
    ensures put { OnOk result (out.new ≡ closed out.old) }
    ensures front { OnErr result (take (length out.old) out.new ≡ out.old) }
{
    if ends_closed(out.as_bytes()) {
        return out.put(b" >");
    }
    out.put(b">")
}

/// Whether a text ends with `>`.
pub(crate) fn ends_closed(text: &[u8]) -> bool
    ensures { result ≡ ends_closed text.now }
{
    match text {
        [.., last] => *last == b'>',
        [] => false,
    }
}

/// Appends `ref$<X>`, `ref_mut$<X>`, `ptr_const$<X>` or `ptr_mut$<X>`.
#[cycle(cv_spell)]
fn put_cv_pointer(kind: PtrKind, to: &Name, out: &mut Buf) -> Result<(), Memory>
    ensures put { OnOk result (out.new ≡ out.old ++ closed (cv_kind_text kind ++ cv_text to.now)) }
    ensures front { OnErr result (take (length out.old) out.new ≡ out.old) }
{
    put_cv_target(kind, to, out)?;
    put_closing(out)
}

/// Appends a pointer up to its closing.
#[cycle(cv_spell)]
fn put_cv_target(kind: PtrKind, to: &Name, out: &mut Buf) -> Result<(), Memory>
    ensures put { OnOk result (out.new ≡ out.old ++ (cv_kind_text kind ++ cv_text to.now)) }
    ensures front { OnErr result (take (length out.old) out.new ≡ out.old) }
{
    put_cv_kind(kind, out)?;
    put_cv_name(to, out)
}

/// Appends what stands before the name that a pointer points to.
fn put_cv_kind(kind: PtrKind, out: &mut Buf) -> Result<(), Memory>
    ensures put { OnOk result (out.new ≡ out.old ++ cv_kind_text kind) }
    ensures front { OnErr result (take (length out.old) out.new ≡ out.old) }
{
    match kind {
        PtrKind::Ref => out.put(b"ref$<"),
        PtrKind::RefMut => out.put(b"ref_mut$<"),
        PtrKind::Const => out.put(b"ptr_const$<"),
        PtrKind::Mut => out.put(b"ptr_mut$<"),
        PtrKind::Boxed => out.put(b"box$<"),
    }
}

/// Appends `slice2$<X>`.
#[cycle(cv_spell)]
fn put_cv_slice(item: &Name, out: &mut Buf) -> Result<(), Memory>
    ensures put { OnOk result (out.new ≡ out.old ++ closed (codes "slice2$<" ++ cv_text item.now)) }
    ensures front { OnErr result (take (length out.old) out.new ≡ out.old) }
{
    put_cv_item(item, out)?;
    put_closing(out)
}

/// Appends a slice up to its closing.
#[cycle(cv_spell)]
fn put_cv_item(item: &Name, out: &mut Buf) -> Result<(), Memory>
    ensures put { OnOk result (out.new ≡ out.old ++ (codes "slice2$<" ++ cv_text item.now)) }
    ensures front { OnErr result (take (length out.old) out.new ≡ out.old) }
{
    out.put(b"slice2$<")?;
    put_cv_name(item, out)
}

/// Appends `array$<X,n>`.
#[cycle(cv_spell)]
fn put_cv_array(item: &Name, count: u64, out: &mut Buf) -> Result<(), Memory>
    ensures put { OnOk result (out.new ≡ out.old ++ closed (codes "array$<" ++ cv_text item.now ++ codes "," ++ decimal count)) }
    ensures front { OnErr result (take (length out.old) out.new ≡ out.old) }
{
    put_cv_counted(item, count, out)?;
    put_closing(out)
}

/// Appends an array up to its closing.
#[cycle(cv_spell)]
fn put_cv_counted(item: &Name, count: u64, out: &mut Buf) -> Result<(), Memory>
    ensures put { OnOk result (out.new ≡ out.old ++ (codes "array$<" ++ cv_text item.now ++ codes "," ++ decimal count)) }
    ensures front { OnErr result (take (length out.old) out.new ≡ out.old) }
{
    put_cv_items(item, out)?;
    out.put_decimal(u128::from(count))
}

/// Appends an array up to its length.
#[cycle(cv_spell)]
fn put_cv_items(item: &Name, out: &mut Buf) -> Result<(), Memory>
    ensures put { OnOk result (out.new ≡ out.old ++ (codes "array$<" ++ cv_text item.now ++ codes ",")) }
    ensures front { OnErr result (take (length out.old) out.new ≡ out.old) }
{
    out.put(b"array$<")?;
    put_cv_name(item, out)?;
    out.put(b",")
}

/// Puts names in angle brackets after a head, which ends with `<`.
#[cycle(cv_spell)]
fn put_cv_list(head: &[u8], names: &[Name], out: &mut Buf) -> Result<(), Memory>
    requires { 0 < length head.now }
    ensures put { OnOk result (out.new ≡ out.old ++ closed (head.now ++ joined (codes ",") (map cv_text names.now))) }
    ensures front { OnErr result (take (length out.old) out.new ≡ out.old) }
{
    put_cv_opened(head, names, out)?;
    put_closing(out)
}

/// Appends the head and the names, without the closing.
#[cycle(cv_spell)]
fn put_cv_opened(head: &[u8], names: &[Name], out: &mut Buf) -> Result<(), Memory>
    ensures put { OnOk result (out.new ≡ out.old ++ (head.now ++ joined (codes ",") (map cv_text names.now))) }
    ensures front { OnErr result (take (length out.old) out.new ≡ out.old) }
{
    out.put(head)?;
    put_cv_names(names, out)
}

/// Puts the result of a function's name, which stands first.
#[cycle(cv_spell)]
fn put_cv_result(to: &Name, out: &mut Buf) -> Result<(), Memory>
    ensures put { OnOk result (out.new ≡ out.old ++ (codes "fn$<" ++ cv_text to.now)) }
    ensures front { OnErr result (take (length out.old) out.new ≡ out.old) }
{
    out.put(b"fn$<")?;
    put_cv_name(to, out)
}

/// Appends `assoc$<WORD,X>`.
#[cycle(cv_spell)]
fn put_cv_bind(word: &Word, to: &Name, out: &mut Buf) -> Result<(), Memory>
    ensures put { OnOk result (out.new ≡ out.old ++ closed (codes "assoc$<" ++ word.now ++ codes "," ++ cv_text to.now)) }
    ensures front { OnErr result (take (length out.old) out.new ≡ out.old) }
{
    put_cv_bound(word, to, out)?;
    put_closing(out)
}

/// Appends a binding up to its closing.
#[cycle(cv_spell)]
fn put_cv_bound(word: &Word, to: &Name, out: &mut Buf) -> Result<(), Memory>
    ensures put { OnOk result (out.new ≡ out.old ++ (codes "assoc$<" ++ word.now ++ codes "," ++ cv_text to.now)) }
    ensures front { OnErr result (take (length out.old) out.new ≡ out.old) }
{
    put_bound_word(word, out)?;
    put_cv_name(to, out)
}

/// Appends a binding up to the name.
fn put_bound_word(word: &Word, out: &mut Buf) -> Result<(), Memory>
    ensures put { OnOk result (out.new ≡ out.old ++ (codes "assoc$<" ++ word.now ++ codes ",")) }
    ensures front { OnErr result (take (length out.old) out.new ≡ out.old) }
{
    out.put(b"assoc$<")?;
    out.put(word.as_bytes())?;
    out.put(b",")
}

/// Appends a segment with its args.
#[cycle(cv_spell)]
fn put_cv_seg(seg: &Seg, out: &mut Buf) -> Result<(), Memory>
    ensures put { OnOk result (out.new ≡ out.old ++ cv_seg_text seg.now) }
    ensures front { OnErr result (take (length out.old) out.new ≡ out.old) }
{
    put_cv_word(&seg.word, seg.number, out)?;
    put_cv_args(seg.args.as_slice(), out)
}

/// Appends `WORD`, or `WORD$n` where the segment has a number.
fn put_cv_word(word: &Word, number: Option<u32>, out: &mut Buf) -> Result<(), Memory>
    ensures put { OnOk result (out.new ≡ out.old ++ cv_word_text word.now number) }
    ensures front { OnErr result (take (length out.old) out.new ≡ out.old) }
{
    match number {
        None => out.put(word.as_bytes()),
        Some(number) => {
            out.put(word.as_bytes())?;
            out.put(b"$")?;
            out.put_decimal(u128::from(number))
        }
    }
}

/// Appends `<X,Y>`, or nothing where there are no args.
#[cycle(cv_spell)]
fn put_cv_args(args: &[Name], out: &mut Buf) -> Result<(), Memory>
    ensures put { OnOk result (out.new ≡ out.old ++ cv_args_text (map cv_text args.now)) }
    ensures front { OnErr result (take (length out.old) out.new ≡ out.old) }
{
    if args.is_empty() {
        return Ok(());
    }
    put_cv_list(b"<", args, out)
}

/// Appends the segments of a path, with `::` between each two.
#[cycle(cv_spell)]
fn put_cv_segs(segs: &[Seg], out: &mut Buf) -> Result<(), Memory>
    ensures put { OnOk result (out.new ≡ out.old ++ joined (codes "::") (map cv_seg_text segs.now)) }
    ensures front { OnErr result (take (length out.old) out.new ≡ out.old) }
{
    for (i, seg) in segs.iter().enumerate() {
        if i > 0 {
            out.put(b"::")?;
        }
        put_cv_seg(seg, out)?;
    }
    Ok(())
}

/// Appends the names, with `,` between each two.
#[cycle(cv_spell)]
fn put_cv_names(names: &[Name], out: &mut Buf) -> Result<(), Memory>
    ensures put { OnOk result (out.new ≡ out.old ++ joined (codes ",") (map cv_text names.now)) }
    ensures front { OnErr result (take (length out.old) out.new ≡ out.old) }
{
    for (i, name) in names.iter().enumerate() {
        if i > 0 {
            out.put(b",")?;
        }
        put_cv_name(name, out)?;
    }
    Ok(())
}

/// Puts the parameters after the result, and closes.
#[cycle(cv_spell)]
fn put_cv_params(params: &[Name], out: &mut Buf) -> Result<(), Memory>
    ensures put { OnOk result (out.new ≡ closed (out.old ++ flat_map (λ t. codes "," ++ t) (map cv_text params.now))) }
    ensures front { OnErr result (take (length out.old) out.new ≡ out.old) }
{
    put_cv_more(params, out)?;
    put_closing(out)
}

/// Puts each name after a comma.
#[cycle(cv_spell)]
fn put_cv_more(names: &[Name], out: &mut Buf) -> Result<(), Memory>
    ensures put { OnOk result (out.new ≡ out.old ++ flat_map (λ t. codes "," ++ t) (map cv_text names.now)) }
    ensures front { OnErr result (take (length out.old) out.new ≡ out.old) }
{
    for name in names {
        out.put(b",")?;
        put_cv_name(name, out)?;
    }
    Ok(())
}

//! Names in the spelling of Rust, read.
ghost use Rattle.std.specs.Prelude.{◌≡◌, [], codes};
ghost use Rattle.names.specs.Reading.{many};
ghost use Rattle.rust_names.specs.RustGrammar.{rust, within, alone_if, args_of, numbered, seg_of, seg_after, path_from, path_after};
ghost use Rattle.rust_names.specs.RustGrammar.{bracketed, pointed, referred_word, referred, tuple_from, dyn_from, parts_word, parts};
ghost use Rattle.rust_names.specs.RustGrammar.{result_of, function, numbered_path, inside_of, arg_word, no_unit};
ghost use Rattle.names.specs.Plain.{has_some};
ghost use Rattle.names.specs.Steps.{Stepped};

use crate::fitting::holds;
use names::{
    Name, PtrKind, Rest, Seg, StepErr, Word, has_some, is_plain_str, is_word, one, with_first,
    with_room,
};
use rv_io::{Boxed, List};
use std::alloc::Global;

/// Reads a name that nests at most `depth` deep.
#[cycle(reading)]
pub(crate) fn whole(text: &mut Rest<'_>, alloc: Global, depth: u32) -> Result<Name, StepErr>
    ensures { Stepped ((rust depth).whole.read text.old) result text.new }
{
    if depth == 0 {
        return Err(StepErr::Bad);
    }
    whole_within(text, alloc, depth - 1)
}

/// Reads an arg that nests at most `depth` deep.
#[cycle(reading)]
fn arg(text: &mut Rest<'_>, alloc: Global, depth: u32) -> Result<Name, StepErr>
    ensures { Stepped ((rust depth).arg.read text.old) result text.new }
{
    if depth == 0 {
        return Err(StepErr::Bad);
    }
    arg_within(text, alloc, depth - 1)
}

/// Reads a member of a `Dyn`, which is a path, that nests at most `depth` deep.
#[cycle(reading)]
fn member(text: &mut Rest<'_>, alloc: Global, depth: u32) -> Result<Name, StepErr>
    ensures { Stepped ((rust depth).member.read text.old) result text.new }
{
    if depth == 0 {
        return Err(StepErr::Bad);
    }
    member_within(text, alloc, depth - 1)
}

/// Reads a name after its first word.
#[cycle(reading)]
fn worded(text: &mut Rest<'_>, alloc: Global, depth: u32, first: Word) -> Result<Name, StepErr>
    ensures { Stepped (((rust depth).worded first).read text.old) result text.new }
{
    if depth == 0 {
        return Err(StepErr::Bad);
    }
    worded_within(text, alloc, depth - 1, first)
}

/// Reads a path after its first word, or `str`.
#[cycle(reading)]
fn plain(text: &mut Rest<'_>, alloc: Global, depth: u32, first: Word) -> Result<Name, StepErr>
    ensures { Stepped (((rust depth).plain first).read text.old) result text.new }
{
    if depth == 0 {
        return Err(StepErr::Bad);
    }
    path_after(text, alloc, depth - 1, first, None, true)
}

/// Reads a name that begins with no word; `unit` says whether it may be `()`.
#[cycle(reading)]
fn symbol(text: &mut Rest<'_>, alloc: Global, depth: u32, unit: bool) -> Result<Name, StepErr>
    ensures { Stepped (((rust depth).symbol unit).read text.old) result text.new }
{
    if depth == 0 {
        return Err(StepErr::Bad);
    }
    symbol_within(text, alloc, depth - 1, unit)
}

/// Reads a name whose parts nest at most `inner` deep, as do those of each name below.
#[cycle(reading)]
fn whole_within(text: &mut Rest<'_>, alloc: Global, inner: u32) -> Result<Name, StepErr>
    ensures { Stepped ((within inner).whole.read text.old) result text.new }
{
    if !text.starts_word() {
        return symbol_within(text, alloc, inner, true);
    }
    let first = text.word(alloc)?;
    worded_within(text, alloc, inner, first)
}

/// Reads a member of a `Dyn`.
#[cycle(reading)]
fn member_within(text: &mut Rest<'_>, alloc: Global, inner: u32) -> Result<Name, StepErr>
    ensures { Stepped ((within inner).member.read text.old) result text.new }
{
    if !text.starts_word() {
        return numbered_path(text, alloc, inner);
    }
    let first = text.word(alloc)?;
    path_after(text, alloc, inner, first, None, false)
}

/// Reads an arg: a name, a number or a binding.
#[cycle(reading)]
fn arg_within(text: &mut Rest<'_>, alloc: Global, inner: u32) -> Result<Name, StepErr>
    ensures { Stepped ((within inner).arg.read text.old) result text.new }
{
    if text.starts_word() {
        let first = text.word(alloc)?;
        return arg_word(text, alloc, inner, first);
    }
    if text.begins(b'-') {
        text.skip();
        return Ok(Name::Number(true, text.number(false, u128::MAX)?));
    }
    if text.starts_digit() {
        return Ok(Name::Number(false, text.number(true, u128::MAX)?));
    }
    symbol_within(text, alloc, inner, true)
}

/// Reads an arg after its first word: a binding, or a name.
#[cycle(reading)]
fn arg_word(text: &mut Rest<'_>, alloc: Global, inner: u32, first: Word) -> Result<Name, StepErr>
    ensures { Stepped ((arg_word (has_some inner) (rust inner) first).read text.old) result text.new }
{
    if has_some(inner) && text.begins(b'=') {
        text.skip();
        let to = whole(text, alloc, inner)?;
        return Ok(Name::Bind(first, Boxed::new(alloc, to)?));
    }
    worded_within(text, alloc, inner, first)
}

/// Reads a name after its first word: a `Dyn` of one member, a function, `str` or a path.
#[cycle(reading)]
fn worded_within(
    text: &mut Rest<'_>,
    alloc: Global,
    inner: u32,
    first: Word,
) -> Result<Name, StepErr>
    ensures { Stepped (((within inner).worded first).read text.old) result text.new }
{
    if has_some(inner) && is_word(&first, b"dyn") && text.begins(b' ') {
        text.skip();
        let member = member(text, alloc, inner)?;
        return Ok(Name::Dyn(one(alloc, member)?));
    }
    if has_some(inner) && is_word(&first, b"fn") && text.begins(b'(') {
        text.skip();
        return function(text, alloc, inner);
    }
    path_after(text, alloc, inner, first, None, true)
}

/// Reads a name that begins with no word: a pointer, a slice, an array, what stands in parentheses, or a path.
#[cycle(reading)]
fn symbol_within(
    text: &mut Rest<'_>,
    alloc: Global,
    inner: u32,
    unit: bool,
) -> Result<Name, StepErr>
    ensures { Stepped (((within inner).symbol unit).read text.old) result text.new }
{
    if has_some(inner) && text.begins(b'&') {
        text.skip();
        return referred(text, alloc, inner);
    }
    if has_some(inner) && text.begins(b'*') {
        text.skip();
        return pointed(text, alloc, inner);
    }
    if has_some(inner) && text.begins(b'[') {
        text.skip();
        return bracketed(text, alloc, inner);
    }
    if (unit || has_some(inner)) && text.begins(b'(') {
        text.skip();
        return inside(text, alloc, inner, unit);
    }
    numbered_path(text, alloc, inner)
}

/// What stands in parentheses, after the `(`.
#[cycle(reading)]
fn inside(text: &mut Rest<'_>, alloc: Global, inner: u32, unit: bool) -> Result<Name, StepErr>
    ensures { Stepped ((inside_of (has_some inner) (rust inner) unit).read text.old) result text.new }
{
    if unit && text.begins(b')') {
        text.skip();
        return Ok(Name::Tuple(List::new(alloc)));
    }
    if !has_some(inner) {
        return Err(StepErr::Bad);
    }
    parts(text, alloc, inner)
}

/// Reads a tuple of one or more parts, or a `Dyn` of two or more members, after the `(`.
#[cycle(reading)]
fn parts(text: &mut Rest<'_>, alloc: Global, inner: u32) -> Result<Name, StepErr>
    ensures { Stepped ((parts (rust inner)).read text.old) result text.new }
{
    if !text.starts_word() {
        let part = symbol(text, alloc, inner, true)?;
        return tuple_from(text, alloc, inner, part);
    }
    let first = text.word(alloc)?;
    parts_word(text, alloc, inner, first)
}

/// Reads what stands in parentheses after its first word.
#[cycle(reading)]
fn parts_word(text: &mut Rest<'_>, alloc: Global, inner: u32, first: Word) -> Result<Name, StepErr>
    ensures { Stepped ((parts_word (rust inner) first).read text.old) result text.new }
{
    if !is_word(&first, b"dyn") {
        let part = worded(text, alloc, inner, first)?;
        return tuple_from(text, alloc, inner, part);
    }
    if text.begins(b' ') {
        text.skip();
        let member = member(text, alloc, inner)?;
        return dyn_from(text, alloc, inner, member);
    }
    let part = plain(text, alloc, inner, first)?;
    tuple_from(text, alloc, inner, part)
}

/// What stands after `(dyn A`.
#[cycle(reading)]
fn dyn_from(text: &mut Rest<'_>, alloc: Global, inner: u32, member: Name) -> Result<Name, StepErr>
    ensures { Stepped ((dyn_from (rust inner) member).read text.old) result text.new }
{
    if text.begins(b' ') {
        text.skip();
        text.literal(b"+ ")?;
        let rest = members(text, alloc, inner)?;
        text.literal(b")")?;
        return Ok(Name::Dyn(with_first(member, rest)?));
    }
    if !holds(inner, &member) {
        return Err(StepErr::Bad);
    }
    let part = Name::Dyn(one(alloc, member)?);
    tuple_from(text, alloc, inner, part)
}

/// The rest of a tuple after its first part.
#[cycle(reading)]
fn tuple_from(text: &mut Rest<'_>, alloc: Global, inner: u32, part: Name) -> Result<Name, StepErr>
    ensures { Stepped ((tuple_from (rust inner) part).read text.old) result text.new }
{
    if text.begins(b',') {
        text.skip();
        text.literal(b" ")?;
        let rest = wholes(text, alloc, inner)?;
        text.literal(b")")?;
        return Ok(Name::Tuple(with_first(part, rest)?));
    }
    text.literal(b")")?;
    Ok(Name::Tuple(one(alloc, part)?))
}

/// Reads the name of a function after `fn(`.
#[cycle(reading)]
fn function(text: &mut Rest<'_>, alloc: Global, inner: u32) -> Result<Name, StepErr>
    ensures { Stepped ((function (rust inner)).read text.old) result text.new }
{
    if text.begins(b')') {
        text.skip();
        return result_of(text, alloc, inner, List::new(alloc));
    }
    let params = wholes(text, alloc, inner)?;
    text.literal(b")")?;
    result_of(text, alloc, inner, params)
}

/// Reads the result of a function with these parameters; there is no arrow before `()`.
#[cycle(reading)]
fn result_of(
    text: &mut Rest<'_>,
    alloc: Global,
    inner: u32,
    params: List<Name>,
) -> Result<Name, StepErr>
    ensures { Stepped ((result_of (rust inner) params).read text.old) result text.new }
{
    if text.begins(b' ') {
        text.skip();
        text.literal(b"-> ")?;
        let to = no_unit(text, alloc, inner)?;
        return Ok(Name::Fn(params, Boxed::new(alloc, to)?));
    }
    let unit = Name::Tuple(List::new(alloc));
    Ok(Name::Fn(params, Boxed::new(alloc, unit)?))
}

/// Reads a name other than `()`.
#[cycle(reading)]
fn no_unit(text: &mut Rest<'_>, alloc: Global, inner: u32) -> Result<Name, StepErr>
    ensures { Stepped ((no_unit (rust inner)).read text.old) result text.new }
{
    if !text.starts_word() {
        return symbol(text, alloc, inner, false);
    }
    let first = text.word(alloc)?;
    worded(text, alloc, inner, first)
}

/// Reads a slice or an array after the `[`.
#[cycle(reading)]
fn bracketed(text: &mut Rest<'_>, alloc: Global, inner: u32) -> Result<Name, StepErr>
    ensures { Stepped ((bracketed (rust inner)).read text.old) result text.new }
{
    let item = whole(text, alloc, inner)?;
    if text.begins(b']') {
        text.skip();
        return Ok(Name::Slice(Boxed::new(alloc, item)?));
    }
    text.literal(b"; ")?;
    let count = text.number_u64()?;
    text.literal(b"]")?;
    Ok(Name::Array(Boxed::new(alloc, item)?, count))
}

/// Reads a raw pointer after the `*`.
#[cycle(reading)]
fn pointed(text: &mut Rest<'_>, alloc: Global, inner: u32) -> Result<Name, StepErr>
    ensures { Stepped ((pointed (rust inner)).read text.old) result text.new }
{
    if text.begins(b'c') {
        text.skip();
        text.literal(b"onst ")?;
        let to = whole(text, alloc, inner)?;
        return Ok(Name::Pointer(PtrKind::Const, Boxed::new(alloc, to)?));
    }
    if text.begins(b'm') {
        text.skip();
        text.literal(b"ut ")?;
        let to = whole(text, alloc, inner)?;
        return Ok(Name::Pointer(PtrKind::Mut, Boxed::new(alloc, to)?));
    }
    Err(StepErr::Bad)
}

/// Reads a reference after the `&`.
#[cycle(reading)]
fn referred(text: &mut Rest<'_>, alloc: Global, inner: u32) -> Result<Name, StepErr>
    ensures { Stepped ((referred (rust inner)).read text.old) result text.new }
{
    if !text.starts_word() {
        let to = symbol(text, alloc, inner, true)?;
        return Ok(Name::Pointer(PtrKind::Ref, Boxed::new(alloc, to)?));
    }
    let first = text.word(alloc)?;
    referred_word(text, alloc, inner, first)
}

/// Reads a reference after the first word after the `&`.
#[cycle(reading)]
fn referred_word(
    text: &mut Rest<'_>,
    alloc: Global,
    inner: u32,
    first: Word,
) -> Result<Name, StepErr>
    ensures { Stepped ((referred_word (rust inner) first).read text.old) result text.new }
{
    if !is_word(&first, b"mut") {
        let to = worded(text, alloc, inner, first)?;
        return Ok(Name::Pointer(PtrKind::Ref, Boxed::new(alloc, to)?));
    }
    if text.begins(b' ') {
        text.skip();
        let to = whole(text, alloc, inner)?;
        return Ok(Name::Pointer(PtrKind::RefMut, Boxed::new(alloc, to)?));
    }
    let to = plain(text, alloc, inner, first)?;
    Ok(Name::Pointer(PtrKind::Ref, Boxed::new(alloc, to)?))
}

/// Reads a path whose first segment has a number.
#[cycle(reading)]
fn numbered_path(text: &mut Rest<'_>, alloc: Global, inner: u32) -> Result<Name, StepErr>
    ensures { Stepped ((numbered_path (has_some inner) (rust inner).arg).read text.old) result text.new }
{
    if !text.begins(b'{') {
        return Err(StepErr::Bad);
    }
    text.skip();
    let (first, number) = numbered(text, alloc)?;
    path_after(text, alloc, inner, first, Some(number), false)
}

/// A path after its first word or number; `str` alone is a name where `alone` says so.
#[cycle(reading)]
fn path_after(
    text: &mut Rest<'_>,
    alloc: Global,
    inner: u32,
    first: Word,
    number: Option<u32>,
    alone: bool,
) -> Result<Name, StepErr>
    ensures { Stepped ((path_after (has_some inner) (rust inner).arg (alone_if alone) first number).read text.old) result text.new }
{
    let seg = seg_after(text, alloc, inner, first, number)?;
    path_from(text, alloc, inner, seg, alone)
}

/// Reads the rest of a path after its first segment.
#[cycle(reading)]
fn path_from(
    text: &mut Rest<'_>,
    alloc: Global,
    inner: u32,
    seg: Seg,
    alone: bool,
) -> Result<Name, StepErr>
    ensures { Stepped ((path_from (has_some inner) (rust inner).arg (alone_if alone) seg).read text.old) result text.new }
{
    if text.begins(b':') {
        text.skip();
        text.literal(b":")?;
        let rest = segs(text, alloc, inner)?;
        return Ok(Name::Path(with_first(seg, rest)?));
    }
    if !is_plain_str(&seg) {
        return Ok(Name::Path(one(alloc, seg)?));
    }
    if alone {
        Ok(Name::Str)
    } else {
        Err(StepErr::Bad)
    }
}

/// Reads a segment of a path.
#[cycle(reading)]
fn seg(text: &mut Rest<'_>, alloc: Global, inner: u32) -> Result<Seg, StepErr>
    ensures { Stepped ((seg_of (has_some inner) (rust inner).arg).read text.old) result text.new }
{
    if text.begins(b'{') {
        text.skip();
        let (first, number) = numbered(text, alloc)?;
        return seg_after(text, alloc, inner, first, Some(number));
    }
    let first = text.word(alloc)?;
    seg_after(text, alloc, inner, first, None)
}

/// Reads the args of a segment after its word and number.
#[cycle(reading)]
fn seg_after(
    text: &mut Rest<'_>,
    alloc: Global,
    inner: u32,
    word: Word,
    number: Option<u32>,
) -> Result<Seg, StepErr>
    ensures { Stepped ((seg_after (has_some inner) (rust inner).arg word number).read text.old) result text.new }
{
    let args = args(text, alloc, inner)?;
    Ok(Seg { word, number, args })
}

/// Reads `<X, Y>`, or nothing where no `<` is next.
#[cycle(reading)]
fn args(text: &mut Rest<'_>, alloc: Global, inner: u32) -> Result<List<Name>, StepErr>
    ensures { Stepped ((args_of (has_some inner) (rust inner).arg).read text.old) result text.new }
{
    if has_some(inner) && text.begins(b'<') {
        text.skip();
        let args = each_arg(text, alloc, inner)?;
        text.literal(b">")?;
        return Ok(args);
    }
    Ok(List::new(alloc))
}

/// Reads one name or more, with `, ` between each two.
#[cycle(reading)]
fn wholes(text: &mut Rest<'_>, alloc: Global, inner: u32) -> Result<List<Name>, StepErr>
    ensures { Stepped ((many (rust inner).whole 44 (codes " ")).read text.old) result text.new }
{
    let mut names = with_room(alloc, 1);
    loop {
        let name = whole(text, alloc, inner)?;
        names.push(name)?;
        if !text.begins(b',') {
            return Ok(names);
        }
        text.skip();
        text.literal(b" ")?;
    }
}

/// Reads one arg or more, with `, ` between each two.
#[cycle(reading)]
fn each_arg(text: &mut Rest<'_>, alloc: Global, inner: u32) -> Result<List<Name>, StepErr>
    ensures { Stepped ((many (rust inner).arg 44 (codes " ")).read text.old) result text.new }
{
    let mut names = with_room(alloc, 1);
    loop {
        let name = arg(text, alloc, inner)?;
        names.push(name)?;
        if !text.begins(b',') {
            return Ok(names);
        }
        text.skip();
        text.literal(b" ")?;
    }
}

/// Reads one member or more, with ` + ` between each two.
#[cycle(reading)]
fn members(text: &mut Rest<'_>, alloc: Global, inner: u32) -> Result<List<Name>, StepErr>
    ensures { Stepped ((many (rust inner).member 32 (codes "+ ")).read text.old) result text.new }
{
    let mut names = with_room(alloc, 1);
    loop {
        let name = member(text, alloc, inner)?;
        names.push(name)?;
        if !text.begins(b' ') {
            return Ok(names);
        }
        text.skip();
        text.literal(b"+ ")?;
    }
}

/// Reads one segment or more, with `::` between each two.
#[cycle(reading)]
fn segs(text: &mut Rest<'_>, alloc: Global, inner: u32) -> Result<List<Seg>, StepErr>
    ensures { Stepped ((many (seg_of (has_some inner) (rust inner).arg) 58 (codes ":")).read text.old) result text.new }
{
    let mut segs = with_room(alloc, 1);
    loop {
        let seg = seg(text, alloc, inner)?;
        segs.push(seg)?;
        if !text.begins(b':') {
            return Ok(segs);
        }
        text.skip();
        text.literal(b":")?;
    }
}

/// `WORD#n}`
fn numbered(text: &mut Rest<'_>, alloc: Global) -> Result<(Word, u32), StepErr>
    ensures { Stepped (numbered.read text.old) result text.new }
{
    let word = text.word(alloc)?;
    text.literal(b"#")?;
    let number = text.number_u32()?;
    text.literal(b"}")?;
    Ok((word, number))
}

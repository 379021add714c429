//! Names in the spelling of CodeView, read.
ghost use Rattle.std.specs.Prelude.{◌≡◌, [], ◌∷◌, codes};
ghost use Rattle.names.specs.Reading.{many};
ghost use Rattle.cv_names.specs.Closings.{read_of, close};
ghost use Rattle.names.specs.Plain.{has_some};
ghost use Rattle.cv_names.specs.CvGrammar.{cv, within, args_of, seg_after, seg_of, path_from, path_after, counted, path_of, pointer_of};
ghost use Rattle.cv_names.specs.CvGrammar.{array_of, function_of, binding_of, content, form_of, unformed, after_dollar, worded, name_of};
ghost use Rattle.cv_names.specs.CvGrammar.{number_of};
ghost use Rattle.names.specs.Steps.{Stepped};

use crate::cv::ends_closed;
use crate::cv_form::Form;
use names::{
    Name, PtrKind, Rest, Seg, StepErr, Word, has_some, is_plain_str, is_word, one, with_first,
    with_room,
};
use rv_io::{Boxed, List};
use std::alloc::Global;

/// Reads a name that nests at most `depth` deep.
#[cycle(cv_reading)]
pub(crate) fn cv_whole(text: &mut Rest<'_>, alloc: Global, depth: u32) -> Result<Name, StepErr>
    ensures { Stepped ((cv depth).whole.read text.old) result text.new }
{
    if depth == 0 {
        return Err(StepErr::Bad);
    }
    cv_name(text, alloc, depth - 1, false)
}

/// Reads an arg that nests at most `depth` deep.
#[cycle(cv_reading)]
fn cv_arg(text: &mut Rest<'_>, alloc: Global, depth: u32) -> Result<Name, StepErr>
    ensures { Stepped ((cv depth).arg.read text.old) result text.new }
{
    if depth == 0 {
        return Err(StepErr::Bad);
    }
    cv_arg_within(text, alloc, depth - 1)
}

/// Reads a member of a `Dyn`, which is a path, that nests at most `depth` deep.
#[cycle(cv_reading)]
fn cv_member(text: &mut Rest<'_>, alloc: Global, depth: u32) -> Result<Name, StepErr>
    ensures { Stepped ((cv depth).member.read text.old) result text.new }
{
    if depth == 0 {
        return Err(StepErr::Bad);
    }
    cv_path(text, alloc, depth - 1)
}

/// Reads an arg: a name, a number or a binding, whose parts nest at most `inner` deep, as do those of each name below.
#[cycle(cv_reading)]
fn cv_arg_within(text: &mut Rest<'_>, alloc: Global, inner: u32) -> Result<Name, StepErr>
    ensures { Stepped ((within inner).arg.read text.old) result text.new }
{
    if text.starts_word() {
        return cv_name(text, alloc, inner, true);
    }
    cv_number(text)
}

/// Reads a name that begins with a word; `in_arg` says whether it stands among args.
#[cycle(cv_reading)]
fn cv_name(text: &mut Rest<'_>, alloc: Global, inner: u32, in_arg: bool) -> Result<Name, StepErr>
    ensures { Stepped ((name_of (has_some inner) (cv inner) in_arg).read text.old) result text.new }
{
    let first = text.word(alloc)?;
    cv_worded(text, alloc, inner, in_arg, first)
}

/// Reads a name after its first word.
#[cycle(cv_reading)]
fn cv_worded(
    text: &mut Rest<'_>,
    alloc: Global,
    inner: u32,
    in_arg: bool,
    first: Word,
) -> Result<Name, StepErr>
    ensures { Stepped ((worded (has_some inner) (cv inner) in_arg first).read text.old) result text.new }
{
    if !text.begins(b'$') {
        return cv_path_after(text, alloc, inner, first, None);
    }
    text.skip();
    after_dollar(text, alloc, inner, in_arg, first)
}

/// Reads a name after its first word and `$`.
#[cycle(cv_reading)]
fn after_dollar(
    text: &mut Rest<'_>,
    alloc: Global,
    inner: u32,
    in_arg: bool,
    first: Word,
) -> Result<Name, StepErr>
    ensures { Stepped ((after_dollar (has_some inner) (cv inner) in_arg first).read text.old) result text.new }
{
    match Form::named(&first) {
        None => unformed(text, alloc, inner, first),
        Some(form) => {
            if form.may_stand(has_some(inner), in_arg) && text.begins(b'<') {
                text.skip();
                return form_content(text, alloc, inner, form);
            }
            unformed(text, alloc, inner, first)
        }
    }
}

/// Reads what is no form, after its first word and `$`.
#[cycle(cv_reading)]
fn unformed(text: &mut Rest<'_>, alloc: Global, inner: u32, first: Word) -> Result<Name, StepErr>
    ensures { Stepped ((unformed (has_some inner) (cv inner).arg first).read text.old) result text.new }
{
    if is_word(&first, b"str") && !text.starts_digit() {
        return Ok(Name::Str);
    }
    counted(text, alloc, inner, first)
}

/// Reads a form after its `<`.
#[cycle(cv_reading)]
fn form_content(text: &mut Rest<'_>, alloc: Global, inner: u32, form: Form) -> Result<Name, StepErr>
    ensures { Stepped ((form_of (has_some inner) (cv inner) form).read text.old) result text.new }
{
    if form.is_tuple() && text.begins(b'>') {
        text.skip();
        return Ok(Name::Tuple(List::new(alloc)));
    }
    let before = text.left();
    let name = content(text, alloc, inner, form)?;
    close(text, before)?;
    Ok(name)
}

/// Reads what stands in a form, other than an empty tuple.
#[cycle(cv_reading)]
fn content(text: &mut Rest<'_>, alloc: Global, inner: u32, form: Form) -> Result<Name, StepErr>
    ensures { Stepped ((content (has_some inner) (cv inner) form).read text.old) result text.new }
{
    match form {
        Form::Ref => cv_pointer(text, alloc, inner, PtrKind::Ref),
        Form::RefMut => cv_pointer(text, alloc, inner, PtrKind::RefMut),
        Form::Const => cv_pointer(text, alloc, inner, PtrKind::Const),
        Form::Mut => cv_pointer(text, alloc, inner, PtrKind::Mut),
        Form::Slice => cv_slice(text, alloc, inner),
        Form::Array => cv_array(text, alloc, inner),
        Form::Tuple => cv_tuple(text, alloc, inner),
        Form::Dyn => cv_dyn(text, alloc, inner),
        Form::Fn => cv_function(text, alloc, inner),
        Form::Bind => cv_binding(text, alloc, inner),
        Form::Enum => cv_path(text, alloc, inner),
    }
}

/// Reads what a pointer of the kind points to.
#[cycle(cv_reading)]
fn cv_pointer(
    text: &mut Rest<'_>,
    alloc: Global,
    inner: u32,
    kind: PtrKind,
) -> Result<Name, StepErr>
    ensures { Stepped ((pointer_of (cv inner) kind).read text.old) result text.new }
{
    let to = cv_whole(text, alloc, inner)?;
    Ok(Name::Pointer(kind, Boxed::new(alloc, to)?))
}

/// Reads the item of a slice.
#[cycle(cv_reading)]
fn cv_slice(text: &mut Rest<'_>, alloc: Global, inner: u32) -> Result<Name, StepErr>
    ensures { Stepped ((content (has_some inner) (cv inner) Form.Slice).read text.old) result text.new }
{
    let item = cv_whole(text, alloc, inner)?;
    Ok(Name::Slice(Boxed::new(alloc, item)?))
}

/// Reads the item of an array and its length.
#[cycle(cv_reading)]
fn cv_array(text: &mut Rest<'_>, alloc: Global, inner: u32) -> Result<Name, StepErr>
    ensures { Stepped ((array_of (cv inner)).read text.old) result text.new }
{
    let item = cv_whole(text, alloc, inner)?;
    text.literal(b",")?;
    let count = text.number_u64()?;
    Ok(Name::Array(Boxed::new(alloc, item)?, count))
}

/// Reads the parts of a tuple that is not empty.
#[cycle(cv_reading)]
fn cv_tuple(text: &mut Rest<'_>, alloc: Global, inner: u32) -> Result<Name, StepErr>
    ensures { Stepped ((content (has_some inner) (cv inner) Form.Tuple).read text.old) result text.new }
{
    if !has_some(inner) {
        return Err(StepErr::Bad);
    }
    let parts = cv_wholes(text, alloc, inner)?;
    Ok(Name::Tuple(parts))
}

/// Reads the members of a `Dyn`.
#[cycle(cv_reading)]
fn cv_dyn(text: &mut Rest<'_>, alloc: Global, inner: u32) -> Result<Name, StepErr>
    ensures { Stepped ((content (has_some inner) (cv inner) Form.Dyn).read text.old) result text.new }
{
    let members = cv_members(text, alloc, inner)?;
    Ok(Name::Dyn(members))
}

/// Reads the result and then the parameters.
#[cycle(cv_reading)]
fn cv_function(text: &mut Rest<'_>, alloc: Global, inner: u32) -> Result<Name, StepErr>
    ensures { Stepped ((function_of (cv inner)).read text.old) result text.new }
{
    let to = cv_whole(text, alloc, inner)?;
    if !text.begins(b',') {
        return Ok(Name::Fn(List::new(alloc), Boxed::new(alloc, to)?));
    }
    text.skip();
    let params = cv_wholes(text, alloc, inner)?;
    Ok(Name::Fn(params, Boxed::new(alloc, to)?))
}

/// Reads the word and the name of a binding.
#[cycle(cv_reading)]
fn cv_binding(text: &mut Rest<'_>, alloc: Global, inner: u32) -> Result<Name, StepErr>
    ensures { Stepped ((binding_of (cv inner)).read text.old) result text.new }
{
    let word = text.word(alloc)?;
    text.literal(b",")?;
    let to = cv_whole(text, alloc, inner)?;
    Ok(Name::Bind(word, Boxed::new(alloc, to)?))
}

/// Reads a path.
#[cycle(cv_reading)]
fn cv_path(text: &mut Rest<'_>, alloc: Global, inner: u32) -> Result<Name, StepErr>
    ensures { Stepped ((path_of (has_some inner) (cv inner).arg).read text.old) result text.new }
{
    let first = text.word(alloc)?;
    if text.begins(b'$') {
        text.skip();
        return counted(text, alloc, inner, first);
    }
    cv_path_after(text, alloc, inner, first, None)
}

/// Reads a path after its first word and `$`.
#[cycle(cv_reading)]
fn counted(text: &mut Rest<'_>, alloc: Global, inner: u32, first: Word) -> Result<Name, StepErr>
    ensures { Stepped ((counted (has_some inner) (cv inner).arg first).read text.old) result text.new }
{
    let number = text.number_u32()?;
    cv_path_after(text, alloc, inner, first, Some(number))
}

/// Reads a path after its first word or number.
#[cycle(cv_reading)]
fn cv_path_after(
    text: &mut Rest<'_>,
    alloc: Global,
    inner: u32,
    first: Word,
    number: Option<u32>,
) -> Result<Name, StepErr>
    ensures { Stepped ((path_after (has_some inner) (cv inner).arg first number).read text.old) result text.new }
{
    let seg = cv_seg_after(text, alloc, inner, first, number)?;
    cv_path_from(text, alloc, inner, seg)
}

/// Reads the rest of a path after its first segment.
#[cycle(cv_reading)]
fn cv_path_from(text: &mut Rest<'_>, alloc: Global, inner: u32, seg: Seg) -> Result<Name, StepErr>
    ensures { Stepped ((path_from (has_some inner) (cv inner).arg seg).read text.old) result text.new }
{
    if text.begins(b':') {
        text.skip();
        text.literal(b":")?;
        let rest = cv_segs(text, alloc, inner)?;
        return Ok(Name::Path(with_first(seg, rest)?));
    }
    if is_plain_str(&seg) {
        return Err(StepErr::Bad);
    }
    Ok(Name::Path(one(alloc, seg)?))
}

/// Reads a segment of a path.
#[cycle(cv_reading)]
fn cv_seg(text: &mut Rest<'_>, alloc: Global, inner: u32) -> Result<Seg, StepErr>
    ensures { Stepped ((seg_of (has_some inner) (cv inner).arg).read text.old) result text.new }
{
    let first = text.word(alloc)?;
    if text.begins(b'$') {
        text.skip();
        let number = text.number_u32()?;
        return cv_seg_after(text, alloc, inner, first, Some(number));
    }
    cv_seg_after(text, alloc, inner, first, None)
}

/// Reads the args of a segment after its word and number.
#[cycle(cv_reading)]
fn cv_seg_after(
    text: &mut Rest<'_>,
    alloc: Global,
    inner: u32,
    word: Word,
    number: Option<u32>,
) -> Result<Seg, StepErr>
    ensures { Stepped ((seg_after (has_some inner) (cv inner).arg word number).read text.old) result text.new }
{
    let args = cv_args(text, alloc, inner)?;
    Ok(Seg { word, number, args })
}

/// Reads `<X,Y>`, or nothing where no `<` is next.
#[cycle(cv_reading)]
fn cv_args(text: &mut Rest<'_>, alloc: Global, inner: u32) -> Result<List<Name>, StepErr>
    ensures { Stepped ((args_of (has_some inner) (cv inner).arg).read text.old) result text.new }
{
    if has_some(inner) && text.begins(b'<') {
        text.skip();
        let before = text.left();
        let args = cv_each_arg(text, alloc, inner)?;
        close(text, before)?;
        return Ok(args);
    }
    Ok(List::new(alloc))
}

/// Reads one name or more, with `,` between each two.
#[cycle(cv_reading)]
fn cv_wholes(text: &mut Rest<'_>, alloc: Global, inner: u32) -> Result<List<Name>, StepErr>
    ensures { Stepped ((many (cv inner).whole 44 []).read text.old) result text.new }
{
    let mut names = with_room(alloc, 1);
    loop {
        let name = cv_whole(text, alloc, inner)?;
        names.push(name)?;
        if !text.begins(b',') {
            return Ok(names);
        }
        text.skip();
    }
}

/// Reads one arg or more, with `,` between each two.
#[cycle(cv_reading)]
fn cv_each_arg(text: &mut Rest<'_>, alloc: Global, inner: u32) -> Result<List<Name>, StepErr>
    ensures { Stepped ((many (cv inner).arg 44 []).read text.old) result text.new }
{
    let mut names = with_room(alloc, 1);
    loop {
        let name = cv_arg(text, alloc, inner)?;
        names.push(name)?;
        if !text.begins(b',') {
            return Ok(names);
        }
        text.skip();
    }
}

/// Reads one member or more, with `,` between each two.
#[cycle(cv_reading)]
fn cv_members(text: &mut Rest<'_>, alloc: Global, inner: u32) -> Result<List<Name>, StepErr>
    ensures { Stepped ((many (cv inner).member 44 []).read text.old) result text.new }
{
    let mut names = with_room(alloc, 1);
    loop {
        let name = cv_member(text, alloc, inner)?;
        names.push(name)?;
        if !text.begins(b',') {
            return Ok(names);
        }
        text.skip();
    }
}

/// Reads one segment or more, with `::` between each two.
#[cycle(cv_reading)]
fn cv_segs(text: &mut Rest<'_>, alloc: Global, inner: u32) -> Result<List<Seg>, StepErr>
    ensures { Stepped ((many (seg_of (has_some inner) (cv inner).arg) 58 (codes ":")).read text.old) result text.new }
{
    let mut segs = with_room(alloc, 1);
    loop {
        let seg = cv_seg(text, alloc, inner)?;
        segs.push(seg)?;
        if !text.begins(b':') {
            return Ok(segs);
        }
        text.skip();
        text.literal(b":")?;
    }
}

/// Reads a number as an arg.
fn cv_number(text: &mut Rest<'_>) -> Result<Name, StepErr>
    ensures { Stepped (number_of.read text.old) result text.new }
{
    if text.begins(b'-') {
        text.skip();
        return Ok(Name::Number(true, text.number(false, u128::MAX)?));
    }
    Ok(Name::Number(false, text.number(true, u128::MAX)?))
}

/// Reads the closing `>` of what was read since `before` was left.
fn close(text: &mut Rest<'_>, before: &[u8]) -> Result<(), StepErr>
    ensures { Stepped ((close (read_of before.now text.old)).read text.old) result text.new }
{
    let read = &before[..before.len().saturating_sub(text.len())];
    if ends_closed(read) {
        return text.literal(b" >");
    }
    text.literal(b">")
}

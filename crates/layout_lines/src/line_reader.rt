//! Lines, read by their forms.
ghost use Rattle.std.specs.Prelude.{◌≡◌, ◌<◌, ◌^◌};
ghost use Rattle.std.specs.Option.{option_map};
ghost use Rattle.layout_words.specs.Forms.{take_word};
ghost use Rattle.layout_words.specs.declared.kinds.TypeKind.TheVariants as kinds;
ghost use Rattle.layout_words.specs.declared.kinds.LineKind.TheVariants as firsts;
ghost use Rattle.layout_lines.specs.ReadLines.{type_of, selector_of, type_line_of, variant_of, rest_of, line_of};
ghost use Rattle.layout_words.specs.Steps.{Read};

use crate::func_reader::{at_of, func_of, piece_of, scope_of, var_of};
use crate::line::Line;
use layout_set::{Case, Field, Param, Selector, Static, Tag, TypeDef};
use layout_words::{LineKind, SelectorKind, Stop, TypeKind, Words, line_kind_of};
use rv_io::List;
use std::alloc::Global;

/// The line with this text, where `next` is the number of the next type.
#[tactic(auto, unfolding(crate::specs::ReadLines::line_of))]
pub fn line_of(alloc: Global, next: u32, text: &[u8]) -> Result<Line, Stop>
    ensures { Read (line_of next text.now) result }
{
    let mut words = Words::new(text);
    let first = words.next_word()?;
    match line_kind_of(first) {
        Some(kind) => rest_of(alloc, next, kind, words),
        None => Err(Stop::Unfit),
    }
}

/// The line of such a kind, behind its first word.
fn rest_of(alloc: Global, next: u32, kind: LineKind, words: Words) -> Result<Line, Stop>
    ensures { Read (rest_of next kind words.entry) result }
{
    match kind {
        LineKind::Version | LineKind::Target => Err(Stop::Unfit),
        LineKind::Type => type_line_of(alloc, next, words),
        LineKind::Param => param_of(alloc, words),
        LineKind::Field => field_of(alloc, words),
        LineKind::Case => case_of(alloc, words),
        LineKind::Tag => tag_of(words),
        LineKind::Variant => variant_of(alloc, words),
        LineKind::Static => static_of(alloc, words),
        LineKind::Func => func_of(alloc, words),
        LineKind::Scope => scope_of(alloc, words),
        LineKind::Var => var_of(alloc, false, words),
        LineKind::Arg => var_of(alloc, true, words),
        LineKind::At => at_of(alloc, words),
        LineKind::Piece => piece_of(alloc, words),
    }
}

/// `WORD T`
fn param_of(alloc: Global, mut words: Words) -> Result<Line, Stop>
    ensures { Read (rest_of 0 firsts.Param words.entry) result }
{
    let name = words.word(alloc)?;
    let ty = words.reference()?;
    words.end()?;
    Ok(Line::Param(Param { name, ty }))
}

/// `WORD OFF T`
fn field_of(alloc: Global, mut words: Words) -> Result<Line, Stop>
    ensures { Read (rest_of 0 firsts.Field words.entry) result }
{
    let name = words.word(alloc)?;
    let off = words.number_u32()?;
    let ty = words.reference()?;
    words.end()?;
    Ok(Line::Field(Field { name, off, ty }))
}

/// `WORD N`
fn case_of(alloc: Global, mut words: Words) -> Result<Line, Stop>
    ensures { Read (rest_of 0 firsts.Case words.entry) result }
{
    let name = words.word(alloc)?;
    let number = words.number_u64()?;
    words.end()?;
    Ok(Line::Case(Case { name, number }))
}

/// `OFF PRIM`
fn tag_of(mut words: Words) -> Result<Line, Stop>
    ensures { Read (rest_of 0 firsts.Tag words.entry) result }
{
    let off = words.number_u32()?;
    let prim = words.primitive()?;
    words.end()?;
    Ok(Line::Tag(Tag { off, prim }))
}

/// `WORD exact N`, `WORD span N N`, `WORD only`
fn variant_of(alloc: Global, mut words: Words) -> Result<Line, Stop>
    ensures { Read (variant_of words.entry) result }
{
    let name = words.word(alloc)?;
    let kind = words.selector_kind()?;
    let sel = selector_of(kind, words)?;
    Ok(Line::Variant(name, sel))
}

fn selector_of(kind: SelectorKind, mut words: Words) -> Result<Selector, Stop>
    ensures { Read (selector_of kind words.entry) result }
{
    match kind {
        SelectorKind::Exact => {
            let number = words.number_u128()?;
            words.end()?;
            Ok(Selector::Exact(number))
        }
        SelectorKind::Span => {
            let lo = words.number_u128()?;
            let hi = words.number_u128()?;
            words.end()?;
            Ok(Selector::Span(lo, hi))
        }
        SelectorKind::Only => {
            words.end()?;
            Ok(Selector::Only)
        }
    }
}

/// `H T NAME`, `none T NAME`
fn static_of(alloc: Global, mut words: Words) -> Result<Line, Stop>
    ensures { Read (rest_of 0 firsts.Static words.entry) result }
{
    let addr = words.address()?;
    let ty = words.reference()?;
    let name = words.name(alloc)?;
    Ok(Line::Static(Static { name, ty, addr }))
}

/// `N KIND`, and what follows
fn type_line_of(alloc: Global, next: u32, mut words: Words) -> Result<Line, Stop>
    ensures { Read (rest_of next firsts.Type words.entry) result }
{
    words.type_number(next)?;
    let kind = words.type_kind()?;
    let def = type_of(alloc, kind, words)?;
    Ok(Line::Type(def))
}

fn type_of(alloc: Global, kind: TypeKind, words: Words) -> Result<TypeDef, Stop>
    ensures { Read (type_of kind words.entry) result }
{
    match kind {
        TypeKind::Struct => struct_of(alloc, words),
        TypeKind::Array => array_of(words),
        TypeKind::Thin => thin_of(words),
        TypeKind::Slice => slice_of(alloc, words),
        TypeKind::Str => str_of(alloc, words),
        TypeKind::Dyn => dyn_of(alloc, words),
        TypeKind::Function => function_of(words),
        TypeKind::CLike => clike_of(alloc, words),
        TypeKind::Enum => enum_of(alloc, words),
        TypeKind::Bytes => bytes_of(alloc, words),
    }
}

/// `SIZE ALIGN NAME`
fn struct_of(alloc: Global, mut words: Words) -> Result<TypeDef, Stop>
    ensures { Read (type_of kinds.Struct words.entry) result }
{
    let size = words.number_u32()?;
    let align = words.number_u32()?;
    let name = words.name(alloc)?;
    let params = List::new(alloc);
    let fields = List::new(alloc);
    Ok(TypeDef::Struct {
        name,
        size,
        align,
        params,
        fields,
    })
}

/// `COUNT T`
fn array_of(mut words: Words) -> Result<TypeDef, Stop>
    ensures { Read (type_of kinds.Array words.entry) result }
{
    let count = words.number_u64()?;
    let elem = words.reference()?;
    words.end()?;
    Ok(TypeDef::Array { elem, count })
}

/// `K T`
fn thin_of(mut words: Words) -> Result<TypeDef, Stop>
    ensures { Read (type_of kinds.Thin words.entry) result }
{
    let kind = words.pointer()?;
    let to = words.reference()?;
    words.end()?;
    Ok(TypeDef::Thin { kind, to })
}

/// `K T NAME`
fn slice_of(alloc: Global, mut words: Words) -> Result<TypeDef, Stop>
    ensures { Read (type_of kinds.Slice words.entry) result }
{
    let kind = words.pointer()?;
    let ptr = words.reference()?;
    let name = words.name(alloc)?;
    Ok(TypeDef::Slice { name, kind, ptr })
}

/// `K T NAME`
fn str_of(alloc: Global, mut words: Words) -> Result<TypeDef, Stop>
    ensures { Read (type_of kinds.Str words.entry) result }
{
    let kind = words.pointer()?;
    let ptr = words.reference()?;
    let name = words.name(alloc)?;
    Ok(TypeDef::Str { name, kind, ptr })
}

/// `K T T NAME`
fn dyn_of(alloc: Global, mut words: Words) -> Result<TypeDef, Stop>
    ensures { Read (type_of kinds.Dyn words.entry) result }
{
    let kind = words.pointer()?;
    let ptr = words.reference()?;
    let vtable = words.reference()?;
    let name = words.name(alloc)?;
    Ok(TypeDef::Dyn {
        name,
        kind,
        ptr,
        vtable,
    })
}

fn function_of(words: Words) -> Result<TypeDef, Stop>
    ensures { Read (type_of kinds.Function words.entry) result }
{
    words.end()?;
    Ok(TypeDef::FnPtr)
}

/// `PRIM NAME`
fn clike_of(alloc: Global, mut words: Words) -> Result<TypeDef, Stop>
    ensures { Read (type_of kinds.CLike words.entry) result }
{
    let tag = words.primitive()?;
    let name = words.name(alloc)?;
    let cases = List::new(alloc);
    Ok(TypeDef::CLike { name, tag, cases })
}

/// `SIZE ALIGN NAME`
fn enum_of(alloc: Global, mut words: Words) -> Result<TypeDef, Stop>
    ensures { Read (type_of kinds.Enum words.entry) result }
{
    let size = words.number_u32()?;
    let align = words.number_u32()?;
    let name = words.name(alloc)?;
    let params = List::new(alloc);
    let tag = None;
    let variants = List::new(alloc);
    Ok(TypeDef::Enum {
        name,
        size,
        align,
        params,
        tag,
        variants,
    })
}

/// `SIZE ALIGN NAME`
fn bytes_of(alloc: Global, mut words: Words) -> Result<TypeDef, Stop>
    ensures { Read (type_of kinds.Bytes words.entry) result }
{
    let size = words.number_u32()?;
    let align = words.number_u32()?;
    let name = words.name(alloc)?;
    Ok(TypeDef::Bytes { name, size, align })
}

//! Honest sets: each span of numbers is that of a leaf in its variant.
ghost use Rattle.std.specs.Prelude.{◌≡◌, ◌+◌, ◌<◌, ◌≤◌, ◌^◌, option_copied, IfSome, IsTrue};
ghost use Rattle.std.specs.Bool.{Decides};
ghost use Rattle.std.specs.List.{All, list_all};
ghost use Rattle.layout_honest.specs.Honest.{holds_bytes, holder, IsHonest};
ghost use Rattle.layout_set.specs.Law5.{HasFitNumbers};
ghost use Rattle.layout_set.specs.Law7.{VariantsApart, HasPartsApart};
ghost use Rattle.layout_honest.specs.Lies.{in_span, range_lies, prim_lies, pointer_lies, is_array, plain_holder, field_lies, selector_lies, enum_lies, def_lies, lies, honest_selector, honest_variants, honest_type};
ghost use Rattle.layout_set.specs.Overlap.{AreApart, spans_of};
ghost use Rattle.layout_set.specs.Primitives.{is_whole};
ghost use Rattle.layout_set.specs.Laws.{IsLawful};
ghost use Rattle.layout_set.specs.Sizes.{AreSmall};

use layout_set::{
    Case, Field, Primitive, Selector, Set, Tag, TypeDef, TypeRef, Variant, prim_size, small_size,
};

/// How many bytes a pointer has, in a lawful set.
const POINTER_SIZE: u8 = 8;

/// A tag of so many bytes, and the span of numbers that chooses a variant.
#[derive(Clone, Copy, Debug, PartialEq, Eq)]
pub(crate) struct Niche {
    pub(crate) width: u32,
    pub(crate) first: u128,
    pub(crate) last: u128,
}

/// Whether the niche's span holds the number.
fn in_span(niche: Niche, number: u128) -> bool
    ensures { result ≡ in_span niche number }
{
    if niche.first <= niche.last {
        niche.first <= number && number <= niche.last
    } else {
        niche.first <= number || number <= niche.last
    }
}

/// Whether the span holds all numbers from `low` to `high`.
fn range_lies(niche: Niche, low: u128, high: u128) -> bool
    ensures { result ≡ range_lies niche low high }
{
    if niche.first <= niche.last {
        niche.first <= low && high <= niche.last
    } else {
        niche.first <= low || high <= niche.last || niche.first == niche.last + 1
    }
}

/// Whether the numbers of a primitive all lie in the span.
fn prim_lies(niche: Niche, prim: Primitive, off: u32) -> bool
    ensures { result ≡ prim_lies niche prim off }
{
    match prim {
        Primitive::Bool => off == 0 && niche.width == 1 && range_lies(niche, 0, 1),
        Primitive::Char => off == 0 && niche.width == 4 && range_lies(niche, 0, 0x10_ffff),
        _ => false,
    }
}

/// Whether the numbers of a pointer that is not null all lie in the span.
fn pointer_lies(niche: Niche, off: u32) -> bool
    ensures { result ≡ pointer_lies 8 niche off }
{
    off == 0 && niche.width == 8 && range_lies(niche, 1, 0xffff_ffff_ffff_ffff)
}

/// Whether the field has all of the bytes.
fn holds_bytes(types: &[TypeDef], width: u32, off: u32, field: &Field) -> bool
    requires { AreSmall 8 types.now }
    ensures { result ≡ holds_bytes 8 types.now width off field.now }
{
    if field.off > off {
        return false;
    }
    let size = u64::from(small_size(POINTER_SIZE, types, field.ty));
    u64::from(off) + u64::from(width) <= u64::from(field.off) + size
}

/// Whether an array is referred to.
fn is_array(types: &[TypeDef], ty: TypeRef) -> bool
    ensures { result ≡ is_array types.now ty }
{
    let TypeRef::User(i) = ty else {
        return false;
    };
    matches!(types.get(i as usize), Some(TypeDef::Array { .. }))
}

/// The field that has all of the bytes and is no array. No tag lies on an array, and sizes of
/// arrays of arrays take long.
fn plain_holder<'a>(
    types: &[TypeDef],
    width: u32,
    off: u32,
    fields: &'a [Field],
) -> Option<&'a Field>
    requires { AreSmall 8 types.now }
    ensures { option_copied result ≡ plain_holder 8 types.now width off fields.now }
{
    for field in fields {
        if !is_array(types, field.ty) && holds_bytes(types, width, off, field) {
            return Some(field);
        }
    }
    None
}

/// Whether the numbers of the cases all lie in the span.
fn cases_lie(niche: Niche, cases: &[Case]) -> bool
    ensures { result ≡ list_all (λ c. in_span niche c.number) cases.now }
{
    cases
        .iter()
        .all(|case| in_span(niche, u128::from(case.number)))
}

/// Whether the tag lies on a leaf of the type, through at most so many types in one another, and the
/// span holds all numbers of the leaf and of the leaves of spans in it.
#[cycle(lying)]
#[tactic(auto, unfolding(crate::specs::Lies::lies))]
fn lies(types: &[TypeDef], niche: Niche, ty: TypeRef, off: u32, most: u32) -> bool
    requires small { AreSmall 8 types.now }
    requires apart { All (HasPartsApart 8 types.now) types.now }
    requires wide { 0 < niche.width }
    ensures { result ≡ lies 8 most types.now niche ty off }
{
    if most == 0 {
        return false;
    }
    match ty {
        TypeRef::Prim(prim) => prim_lies(niche, prim, off),
        TypeRef::User(i) => match types.get(i as usize) {
            Some(def) => def_lies(types, niche, def, off, most - 1),
            None => false,
        },
    }
}

/// Whether the tag lies on a leaf of the type, and the span holds all numbers of that leaf.
#[cycle(lying)]
#[tactic(auto, unfolding(layout_set::specs::Law7::HasPartsApart))]
fn def_lies(types: &[TypeDef], niche: Niche, def: &TypeDef, off: u32, most: u32) -> bool
    requires small { AreSmall 8 types.now }
    requires apart { All (HasPartsApart 8 types.now) types.now }
    requires wide { 0 < niche.width }
    requires parts { HasPartsApart 8 types.now def.now }
    ensures { result ≡ def_lies 8 (lies 8 most types.now niche) types.now niche off def.now }
{
    match def {
        TypeDef::Struct { fields, .. } => { fields_lie(types, niche, off, fields.as_slice(), most) }
        TypeDef::Thin { kind, .. } | TypeDef::Slice { kind, .. } | TypeDef::Str { kind, .. } => {
            kind.is_non_null() && pointer_lies(niche, off)
        }
        TypeDef::FnPtr => pointer_lies(niche, off),
        TypeDef::Dyn { kind, .. } => {
            kind.is_non_null() && (pointer_lies(niche, off) || (off == 8 && pointer_lies(niche, 0)))
        }
        TypeDef::CLike { tag, cases, .. } => {
            off == 0
                && niche.width == prim_size(POINTER_SIZE, *tag)
                && cases_lie(niche, cases.as_slice())
        }
        TypeDef::Enum { tag, variants, .. } => {
            enum_lies(types, niche, off, *tag, variants.as_slice(), most)
        }
        TypeDef::Array { .. } | TypeDef::Bytes { .. } => false,
    }
}

/// Whether the tag of an inner enum lies where the niche is, and the span holds its numbers.
#[cycle(lying)]
fn enum_lies(
    types: &[TypeDef],
    niche: Niche,
    off: u32,
    tag: Option<Tag>,
    variants: &[Variant],
    most: u32,
) -> bool
    requires small { AreSmall 8 types.now }
    requires apart { All (HasPartsApart 8 types.now) types.now }
    requires wide { 0 < niche.width }
    requires parts { VariantsApart 8 types.now variants.now }
    ensures { result ≡ enum_lies 8 (lies 8 most types.now niche) types.now niche off tag variants.now }
{
    match tag {
        None => false,
        Some(tag) => {
            off == tag.off
                && niche.width == prim_size(POINTER_SIZE, tag.prim)
                && variants_lie(types, niche, off, variants, most)
        }
    }
}

/// Whether the numbers that choose the variants all lie in the span.
#[cycle(lying)]
fn variants_lie(types: &[TypeDef], niche: Niche, off: u32, variants: &[Variant], most: u32) -> bool
    requires small { AreSmall 8 types.now }
    requires apart { All (HasPartsApart 8 types.now) types.now }
    requires wide { 0 < niche.width }
    requires parts { VariantsApart 8 types.now variants.now }
    ensures { result ≡ list_all (λ v. selector_lies 8 (lies 8 most types.now niche) types.now niche off v.sel v.fields) variants.now }
{
    for variant in variants {
        if !variant_lies(types, niche, off, variant, most) {
            return false;
        }
    }
    true
}

/// Whether the numbers that choose the variant all lie in the span.
#[cycle(lying)]
fn variant_lies(types: &[TypeDef], niche: Niche, off: u32, variant: &Variant, most: u32) -> bool
    requires small { AreSmall 8 types.now }
    requires apart { All (HasPartsApart 8 types.now) types.now }
    requires wide { 0 < niche.width }
    requires parts { AreApart (spans_of 8 types.now variant.now.fields) }
    ensures { result ≡ selector_lies 8 (lies 8 most types.now niche) types.now niche off variant.now.sel variant.now.fields }
{
    match variant.sel {
        Selector::Exact(number) => in_span(niche, number),
        Selector::Span(_, _) => fields_lie(types, niche, off, variant.fields.as_slice(), most),
        Selector::Only => true,
    }
}

/// Whether the field that holds the niche's bytes has its numbers in the span.
#[cycle(lying)]
#[tactic(auto, using(crate::proofs::Holders::plain_lies))]
fn fields_lie(types: &[TypeDef], niche: Niche, off: u32, fields: &[Field], most: u32) -> bool
    requires small { AreSmall 8 types.now }
    requires apart { All (HasPartsApart 8 types.now) types.now }
    requires wide { 0 < niche.width }
    requires parts { AreApart (spans_of 8 types.now fields.now) }
    ensures { result ≡ field_lies (lies 8 most types.now niche) off (holder 8 types.now niche.width off fields.now) }
{
    match plain_holder(types, niche.width, off, fields) {
        Some(field) => lies(types, niche, field.ty, off.saturating_sub(field.off), most),
        None => false,
    }
}

/// Whether the variant is chosen by no span, or by one in which its leaf's numbers lie.
#[tactic(auto, using(crate::proofs::Holders::whole_is_wide))]
fn is_honest_variant(types: &[TypeDef], tag: Tag, variant: &Variant) -> bool
    requires small { AreSmall 8 types.now }
    requires apart { All (HasPartsApart 8 types.now) types.now }
    requires whole { IsTrue (is_whole tag.prim) }
    requires parts { AreApart (spans_of 8 types.now variant.now.fields) }
    ensures { result ≡ honest_selector 8 types.now tag variant.now.sel variant.now.fields }
{
    match variant.sel {
        Selector::Span(first, last) => {
            let width = prim_size(POINTER_SIZE, tag.prim);
            let niche = Niche { width, first, last };
            fields_lie(types, niche, tag.off, variant.fields.as_slice(), 257)
        }
        Selector::Exact(_) | Selector::Only => true,
    }
}

/// Whether each variant is chosen by no span, or by one in which its leaf's numbers lie.
fn are_honest_variants(types: &[TypeDef], tag: Tag, variants: &[Variant]) -> bool
    requires small { AreSmall 8 types.now }
    requires apart { All (HasPartsApart 8 types.now) types.now }
    requires whole { IsTrue (is_whole tag.prim) }
    requires parts { VariantsApart 8 types.now variants.now }
    ensures { result ≡ list_all (λ v. honest_selector 8 types.now tag v.sel v.fields) variants.now }
{
    for variant in variants {
        if !is_honest_variant(types, tag, variant) {
            return false;
        }
    }
    true
}

/// Whether the type is no enum with a span, or an honest one.
#[tactic(auto, unfolding(layout_set::specs::Law5::HasFitNumbers, layout_set::specs::Law7::HasPartsApart))]
fn is_honest_type(types: &[TypeDef], def: &TypeDef) -> bool
    requires small { AreSmall 8 types.now }
    requires apart { All (HasPartsApart 8 types.now) types.now }
    requires fit { HasFitNumbers 8 def.now }
    requires parts { HasPartsApart 8 types.now def.now }
    ensures { result ≡ honest_type 8 types.now def.now }
{
    match def {
        TypeDef::Enum {
            tag: Some(tag),
            variants,
            ..
        } => are_honest_variants(types, *tag, variants.as_slice()),
        _ => true,
    }
}

/// Whether each type is honest.
fn are_honest(types: &[TypeDef]) -> bool
    requires small { AreSmall 8 types.now }
    requires apart { All (HasPartsApart 8 types.now) types.now }
    requires fit { All (HasFitNumbers 8) types.now }
    ensures { result ≡ list_all (honest_type 8 types.now) types.now }
{
    for def in types {
        if !is_honest_type(types, def) {
            return false;
        }
    }
    true
}

/// Whether the set is honest: each variant that a span of numbers chooses has its tag on a leaf
/// of its fields, all of whose numbers are in the span. Takes no memory.
pub fn is_honest(set: &Set) -> bool
    requires { IsLawful set.now }
    ensures { Decides result (IsHonest set.now) }
{
    are_honest(set.types.as_slice())
}

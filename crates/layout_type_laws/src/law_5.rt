//! Law 5: tags, and the numbers that fit them.
ghost use Rattle.std.specs.Prelude.{◌≡◌, ◌+◌, ◌^◌, ◌↔◌, length, IsTrue};
ghost use Rattle.std.specs.Bool.{Decides};
ghost use Rattle.std.specs.List.{All, HoldsAt, count_by};
ghost use Rattle.layout_set.specs.Found.{IsFirst, Found};
ghost use Rattle.layout_set.specs.Primitives.{prim_width, is_whole};
ghost use Rattle.layout_set.specs.Law5.{FitsTag, HasFitCases, SelectorFits, is_span, IsFitTag, HasFitVariants, HasFitNumbers, Law5};

use layout_set::breach::breach;
use layout_set::{Case, CheckErr, Primitive, Selector, Set, Tag, TypeDef, Variant, is_whole};

/// The greatest number that fits a tag, where a pointer has 8 bytes.
pub(crate) fn greatest_number(tag: Primitive) -> u128
    requires { IsTrue (is_whole tag) }
    ensures { result + 1 ≡ 2 ^ prim_width 8 tag }
{
    match tag {
        Primitive::I8 | Primitive::U8 => 0xff,
        Primitive::I16 | Primitive::U16 => 0xffff,
        Primitive::I32 | Primitive::U32 => 0xffff_ffff,
        Primitive::I128 | Primitive::U128 => u128::MAX,
        _ => 0xffff_ffff_ffff_ffff,
    }
}

/// Whether the numbers of the cases fit the tag.
fn cases_fit(tag: Primitive, cases: &[Case]) -> bool
    requires { IsTrue (is_whole tag) }
    ensures { Decides result (All (λ c. FitsTag 8 tag c.number) cases.now) }
{
    let greatest = greatest_number(tag);
    for case in cases {
        if u128::from(case.number) > greatest {
            return false;
        }
    }
    true
}

/// Whether the tag is a whole number of at most 64 bits, and the cases' numbers fit it.
fn has_fit_cases(tag: Primitive, cases: &[Case]) -> bool
    ensures { Decides result (HasFitCases 8 tag cases.now) }
{
    is_whole(tag) && !matches!(tag, Primitive::I128 | Primitive::U128) && cases_fit(tag, cases)
}

/// Whether the numbers of the selector fit the tag.
fn selector_fits(tag: Primitive, sel: Selector) -> bool
    requires { IsTrue (is_whole tag) }
    ensures { Decides result (SelectorFits 8 tag sel) }
{
    let greatest = greatest_number(tag);
    match sel {
        Selector::Exact(number) => number <= greatest,
        Selector::Span(first, last) => first <= greatest && last <= greatest,
        Selector::Only => true,
    }
}

/// Whether the numbers of all selectors fit the tag.
fn selectors_fit(tag: Primitive, variants: &[Variant]) -> bool
    requires { IsTrue (is_whole tag) }
    ensures { Decides result (All (λ v. SelectorFits 8 tag v.sel) variants.now) }
{
    for variant in variants {
        if !selector_fits(tag, variant.sel) {
            return false;
        }
    }
    true
}

/// Whether the selector is `Only`.
fn is_only(sel: Selector) -> bool
    ensures { Decides result (sel ≡ Selector.Only) }
{
    matches!(sel, Selector::Only)
}

/// Whether the selector is a span.
fn is_span(sel: Selector) -> bool
    ensures { result ≡ is_span sel }
{
    matches!(sel, Selector::Span(_, _))
}

/// Whether each variant's selector is `Only`, or none is.
fn all_only(variants: &[Variant], only: bool) -> bool
    ensures { Decides result (All (λ v. (v.sel ≡ Selector.Only) ↔ IsTrue only) variants.now) }
{
    for variant in variants {
        if is_only(variant.sel) != only {
            return false;
        }
    }
    true
}

/// How many variants are chosen by a span.
fn count_spans(variants: &[Variant]) -> usize
    ensures { result ≡ count_by (λ v. is_span v.sel) variants.now }
{
    variants.iter().filter(|v| is_span(v.sel)).count()
}

/// Whether the tag of an enum with these variants is a whole number that their numbers fit.
fn is_fit_tag(tag: Tag, variants: &[Variant]) -> bool
    ensures { Decides result (IsFitTag 8 variants.now tag) }
{
    is_whole(tag.prim) && selectors_fit(tag.prim, variants)
}

/// Whether an enum with these variants has the tag that they need, and no other.
fn has_fit_variants(tag: Option<Tag>, variants: &[Variant]) -> bool
    ensures { Decides result (HasFitVariants 8 tag variants.now) }
{
    match tag {
        Some(tag) => {
            !variants.is_empty()
                && all_only(variants, false)
                && count_spans(variants) <= 1
                && is_fit_tag(tag, variants)
        }
        None => variants.len() <= 1 && all_only(variants, true),
    }
}

/// Whether the type keeps law 5.
#[tactic(auto, unfolding(layout_set::specs::Law5::HasFitNumbers))]
fn has_fit_numbers(def: &TypeDef) -> bool
    ensures { Decides result (HasFitNumbers 8 def.now) }
{
    match def {
        TypeDef::CLike { tag, cases, .. } => has_fit_cases(*tag, cases.as_slice()),
        TypeDef::Enum { tag, variants, .. } => has_fit_variants(*tag, variants.as_slice()),
        _ => true,
    }
}

/// The first type of which law 5 is false.
fn first_5(types: &[TypeDef]) -> Option<usize>
    ensures { IsFirst (HoldsAt (HasFitNumbers 8) types.now) (length types.now) result }
{
    for (i, def) in types.iter().enumerate() {
        if !has_fit_numbers(def) {
            return Some(i);
        }
    }
    None
}

/// Law 5: tags are whole numbers, and what chooses by them fits.
pub fn law_5(set: &Set) -> Result<(), CheckErr>
    requires { set.now.target.ptr ≡ 8 }
    ensures { Found set.now 5 (Law5 set.now) result }
{
    breach(5, true, first_5(set.types.as_slice()), None, None)
}

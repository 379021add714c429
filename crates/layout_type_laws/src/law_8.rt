//! Law 8: numbers of cases and variants.
ghost use Rattle.std.specs.Prelude.{◌≡◌, ◌+◌, ◌-◌, ◌%◌, ◌^◌, ◌<◌, ◌≤◌, IfOk, IfSome, length};
ghost use Rattle.std.specs.Bool.{Decides};
ghost use Rattle.std.specs.List.{All, AllAdjacentBelow, HoldsAt};
ghost use Rattle.layout_set.specs.Found.{IsFirst, Found};
ghost use Rattle.layout_set.specs.Primitives.{prim_width};
ghost use Rattle.layout_set.specs.Numbers.{AreDistinct, difference_of};
ghost use Rattle.layout_set.specs.Law5.{HasFitNumbers, IsFitTag};
ghost use Rattle.layout_set.specs.Law8.{case_numbers, exact_number, exact_numbers, FollowsExact, IsSpanOf, FollowsNumbers, SpansFollow, HasGoodNumbers, Law8};

use crate::law_5::greatest_number;
use layout_set::breach::breach;
use layout_set::{Case, CheckErr, Selector, Set, Tag, TypeDef, Variant};
use std::alloc::{AllocError, Global};

/// Whether each number is below the next.
fn rises(numbers: &[u128]) -> bool
    ensures { Decides result (AllAdjacentBelow (λ a b. a < b) numbers.now (length numbers.now)) }
{
    for i in 1..numbers.len() {
        if numbers[i] <= numbers[i - 1] {
            return false;
        }
    }
    true
}

/// Whether no two of the numbers are equal.
fn are_distinct(mut numbers: Vec<u128>) -> Result<bool, AllocError>
    ensures { IfOk result (λ distinct. Decides distinct (AreDistinct numbers.items)) }
{
    numbers.sort()?;
    Ok(rises(numbers.as_slice()))
}

/// The numbers of the cases, in their order.
fn case_numbers(alloc: Global, cases: &[Case]) -> Result<Vec<u128>, AllocError>
    ensures { IfOk result (λ v. v.items ≡ case_numbers cases.now) }
{
    let mut numbers = Vec::with_capacity(alloc, cases.len())?;
    for case in cases {
        numbers.push(u128::from(case.number))?;
    }
    Ok(numbers)
}

/// The number that chooses alone, where one does.
fn exact_number(sel: Selector) -> Option<u128>
    ensures { result ≡ exact_number sel }
{
    match sel {
        Selector::Exact(number) => Some(number),
        Selector::Span(_, _) | Selector::Only => None,
    }
}

/// The exact numbers, in the order of the variants.
fn exact_numbers(alloc: Global, variants: &[Variant]) -> Result<Vec<u128>, AllocError>
    ensures { IfOk result (λ v. v.items ≡ exact_numbers variants.now) }
{
    variants
        .iter()
        .filter_map(|variant| exact_number(variant.sel))
        .collect(alloc)
}

/// The difference of two numbers up to `greatest`, modulo one more than that.
fn difference(number: u128, from: u128, greatest: u128) -> u128
    requires { (number ≤ greatest) × (from ≤ greatest) }
    ensures { result ≡ difference_of (greatest + 1) from number }
{
    if number >= from {
        number - from
    } else {
        greatest - from + number + 1
    }
}

/// Whether the differences from a number rise strictly.
fn differences_rise(numbers: &[u128], from: u128, greatest: u128) -> bool
    requires from_fits { from ≤ greatest }
    requires fit { All (λ n. n ≤ greatest) numbers.now }
    ensures { Decides result (AllAdjacentBelow (λ a b. difference_of (greatest + 1) from a < difference_of (greatest + 1) from b) numbers.now (length numbers.now)) }
{
    for i in 1..numbers.len() {
        let before = difference(numbers[i - 1], from, greatest);
        if difference(numbers[i], from, greatest) <= before {
            return false;
        }
    }
    true
}

/// The next number, or 0 after the greatest.
fn number_after(number: u128, greatest: u128) -> u128
    requires { number ≤ greatest }
    ensures { result ≡ (number + 1) % (greatest + 1) }
{
    if number == greatest { 0 } else { number + 1 }
}

/// The number before, or the greatest before 0.
fn number_before(number: u128, greatest: u128) -> u128
    requires { number ≤ greatest }
    ensures { result ≡ (number + (greatest + 1) - 1) % (greatest + 1) }
{
    if number == 0 { greatest } else { number - 1 }
}

/// Whether the exact numbers, of which `from` is the first and `to` the last, rise, and the span
/// from `first` to `last` is what they leave.
fn follows_exact(numbers: &[u128], ends: (u128, u128), greatest: u128, span: (u128, u128)) -> bool
    requires fit { All (λ n. n ≤ greatest) numbers.now }
    requires ends_fit { (ends.0 ≤ greatest) × (ends.1 ≤ greatest) }
    ensures { Decides result (FollowsExact (greatest + 1) ends.0 ends.1 numbers.now span.0 span.1) }
{
    let (from, to) = ends;
    if !differences_rise(numbers, from, greatest) {
        return false;
    }
    if difference(to, from, greatest) >= greatest {
        return false;
    }
    span.0 == number_after(to, greatest) && span.1 == number_before(from, greatest)
}

/// Whether there are exact numbers, and the span is what they leave.
fn is_span_of(numbers: &[u128], greatest: u128, first: u128, last: u128) -> bool
    requires { All (λ n. n ≤ greatest) numbers.now }
    ensures { Decides result (IsSpanOf (greatest + 1) numbers.now first last) }
{
    if numbers.is_empty() {
        return false;
    }
    let ends = (numbers[0], numbers[numbers.len() - 1]);
    follows_exact(numbers, ends, greatest, (first, last))
}

/// Whether the selector is no span, or what the exact numbers leave.
fn follows_numbers(numbers: &[u128], greatest: u128, sel: Selector) -> bool
    requires { All (λ n. n ≤ greatest) numbers.now }
    ensures { Decides result (FollowsNumbers (greatest + 1) numbers.now sel) }
{
    match sel {
        Selector::Span(first, last) => is_span_of(numbers, greatest, first, last),
        Selector::Exact(_) | Selector::Only => true,
    }
}

/// Whether each selector is no span, or what the exact numbers leave.
fn all_follow(numbers: &[u128], greatest: u128, variants: &[Variant]) -> bool
    requires { All (λ n. n ≤ greatest) numbers.now }
    ensures { Decides result (All (λ v. FollowsNumbers (greatest + 1) numbers.now v.sel) variants.now) }
{
    for variant in variants {
        if !follows_numbers(numbers, greatest, variant.sel) {
            return false;
        }
    }
    true
}

/// Whether the spans of an enum with this tag are what its exact numbers leave.
fn spans_follow(alloc: Global, tag: Tag, variants: &[Variant]) -> Result<bool, AllocError>
    requires { IsFitTag 8 variants.now tag }
    ensures { IfOk result (λ kept. Decides kept (SpansFollow 8 (Some tag) variants.now)) }
{
    let numbers = exact_numbers(alloc, variants)?;
    let greatest = greatest_number(tag.prim);
    Ok(all_follow(numbers.as_slice(), greatest, variants))
}

/// The same of an enum with a tag or without.
fn spans_follow_any(
    alloc: Global,
    tag: Option<Tag>,
    variants: &[Variant],
) -> Result<bool, AllocError>
    requires { IfSome tag (IsFitTag 8 variants.now) }
    ensures { IfOk result (λ kept. Decides kept (SpansFollow 8 tag variants.now)) }
{
    match tag {
        Some(tag) => spans_follow(alloc, tag, variants),
        None => Ok(true),
    }
}

/// Whether the exact numbers are distinct, and the spans are what they leave.
fn has_good_variants(
    alloc: Global,
    tag: Option<Tag>,
    variants: &[Variant],
) -> Result<bool, AllocError>
    requires { IfSome tag (IsFitTag 8 variants.now) }
    ensures { IfOk result (λ kept. Decides kept (AreDistinct (exact_numbers variants.now) × SpansFollow 8 tag variants.now)) }
{
    let distinct = are_distinct(exact_numbers(alloc, variants)?)?;
    let follow = spans_follow_any(alloc, tag, variants)?;
    Ok(distinct && follow)
}

/// Whether the type keeps law 8.
#[tactic(auto, unfolding(layout_set::specs::Law5::HasFitNumbers, layout_set::specs::Law8::HasGoodNumbers))]
fn has_good_numbers(alloc: Global, def: &TypeDef) -> Result<bool, AllocError>
    requires { HasFitNumbers 8 def.now }
    ensures { IfOk result (λ kept. Decides kept (HasGoodNumbers 8 def.now)) }
{
    match def {
        TypeDef::CLike { cases, .. } => are_distinct(case_numbers(alloc, cases.as_slice())?),
        TypeDef::Enum { tag, variants, .. } => has_good_variants(alloc, *tag, variants.as_slice()),
        _ => Ok(true),
    }
}

/// The first type of which law 8 is false.
fn first_8(alloc: Global, types: &[TypeDef]) -> Result<Option<usize>, AllocError>
    requires { All (HasFitNumbers 8) types.now }
    ensures { IfOk result (IsFirst (HoldsAt (HasGoodNumbers 8) types.now) (length types.now)) }
{
    for (i, def) in types.iter().enumerate() {
        if !has_good_numbers(alloc, def)? {
            return Ok(Some(i));
        }
    }
    Ok(None)
}

/// Law 8: numbers are distinct, and spans are what they leave. Law 5 holds.
pub fn law_8(alloc: Global, set: &Set) -> Result<(), CheckErr>
    requires pointers { set.now.target.ptr ≡ 8 }
    requires fit { All (HasFitNumbers set.now.target.ptr) set.now.types }
    ensures { Found set.now 8 (Law8 set.now) result }
{
    let def = first_8(alloc, set.types.as_slice())?;
    breach(8, true, def, None, None)
}

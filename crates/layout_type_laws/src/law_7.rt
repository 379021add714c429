//! Law 7: fields that don't overlap, and elements with a size.
ghost use Rattle.std.specs.Prelude.{◌≡◌, IfOk, ◌<◌, length};
ghost use Rattle.std.specs.Bool.{Decides};
ghost use Rattle.std.specs.List.{All, AllAdjacentBelow, HoldsAt};
ghost use Rattle.layout_set.specs.Found.{IsFirst, Found};
ghost use Rattle.layout_set.specs.Overlap.{AreApart, Before, spans_of};
ghost use Rattle.layout_set.specs.Sizes.{AreSmall};
ghost use Rattle.layout_set.specs.Law7.{VariantsApart, HasPartsApart, Law7};

use layout_set::breach::breach;
use layout_set::{CheckErr, Field, Set, TypeDef, Variant, small_size};
use std::alloc::{AllocError, Global};

/// Whether each span ends before the next begins.
fn each_before_next(spans: &[(u64, u64)]) -> bool
    ensures { Decides result (AllAdjacentBelow Before spans.now (length spans.now)) }
{
    for i in 1..spans.len() {
        let (from, len) = spans[i - 1];
        let (next, _) = spans[i];
        if next < from || next - from < len {
            return false;
        }
    }
    true
}

/// Whether no two spans overlap, each of which has a length of at least 1.
fn are_apart(mut spans: Vec<(u64, u64)>) -> Result<bool, AllocError>
    requires { All (λ s. 0 < s.1) spans.items }
    ensures { IfOk result (λ apart. Decides apart (AreApart spans.items)) }
{
    spans.sort()?;
    Ok(each_before_next(spans.as_slice()))
}

/// The start and the length of each field that has a size.
fn spans_of(
    alloc: Global,
    ptr: u8,
    types: &[TypeDef],
    fields: &[Field],
) -> Result<Vec<(u64, u64)>, AllocError>
    requires { AreSmall ptr types.now }
    ensures { IfOk result (λ v. v.items ≡ spans_of ptr types.now fields.now) }
{
    let mut found = Vec::new(alloc);
    for field in fields {
        let size = small_size(ptr, types, field.ty);
        if size > 0 {
            found.push((u64::from(field.off), u64::from(size)))?;
        }
    }
    Ok(found)
}

/// Whether no two of the fields overlap.
fn fields_apart(
    alloc: Global,
    ptr: u8,
    types: &[TypeDef],
    fields: &[Field],
) -> Result<bool, AllocError>
    requires { AreSmall ptr types.now }
    ensures { IfOk result (λ apart. Decides apart (AreApart (spans_of ptr types.now fields.now))) }
{
    are_apart(spans_of(alloc, ptr, types, fields)?)
}

/// Whether in no variant two fields overlap.
fn variants_apart(
    alloc: Global,
    ptr: u8,
    types: &[TypeDef],
    variants: &[Variant],
) -> Result<bool, AllocError>
    requires { AreSmall ptr types.now }
    ensures { IfOk result (λ apart. Decides apart (VariantsApart ptr types.now variants.now)) }
{
    for variant in variants {
        if !fields_apart(alloc, ptr, types, variant.fields.as_slice())? {
            return Ok(false);
        }
    }
    Ok(true)
}

/// Whether the type keeps law 7.
#[tactic(auto, unfolding(layout_set::specs::Law7::HasPartsApart))]
fn has_parts_apart(
    alloc: Global,
    ptr: u8,
    types: &[TypeDef],
    def: &TypeDef,
) -> Result<bool, AllocError>
    requires { AreSmall ptr types.now }
    ensures { IfOk result (λ kept. Decides kept (HasPartsApart ptr types.now def.now)) }
{
    match def {
        TypeDef::Struct { fields, .. } => fields_apart(alloc, ptr, types, fields.as_slice()),
        TypeDef::Array { elem, .. } => Ok(small_size(ptr, types, *elem) > 0),
        TypeDef::Enum { variants, .. } => variants_apart(alloc, ptr, types, variants.as_slice()),
        _ => Ok(true),
    }
}

/// The first type of which law 7 is false.
fn first_7(alloc: Global, ptr: u8, types: &[TypeDef]) -> Result<Option<usize>, AllocError>
    requires { AreSmall ptr types.now }
    ensures { IfOk result (IsFirst (HoldsAt (HasPartsApart ptr types.now) types.now) (length types.now)) }
{
    for (i, def) in types.iter().enumerate() {
        if !has_parts_apart(alloc, ptr, types, def)? {
            return Ok(Some(i));
        }
    }
    Ok(None)
}

/// Law 7: fields don't overlap, and elements have a size.
pub fn law_7(alloc: Global, set: &Set) -> Result<(), CheckErr>
    requires { AreSmall set.now.target.ptr set.now.types }
    ensures { Found set.now 7 (Law7 set.now) result }
{
    let def = first_7(alloc, set.target.ptr, set.types.as_slice())?;
    breach(7, true, def, None, None)
}

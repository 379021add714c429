//! Law 2: types that contain one another by value.
ghost use Rattle.std.specs.Prelude.{◌≡◌, IsTrue, ◌+◌, ◌<◌, IfOk, length, map, max, min, slice_index_or};
ghost use Rattle.layout_set.specs.References.{field_types, variant_types};
ghost use Rattle.layout_set.specs.Law2.{IsShallow, Law2};
ghost use Rattle.layout_type_laws.specs.Heights.{greatest, height_at, step, heights};
ghost use Rattle.layout_set.specs.Found.{IsFirst, Found};

use layout_set::breach::breach;
use layout_set::{CheckErr, Field, Set, TypeDef, TypeRef, Variant};
use std::alloc::{AllocError, Global};

/// The height of the type that is referred to; a primitive's is 0.
fn height_at(heights: &[u32], ty: TypeRef) -> u32
    ensures { result ≡ height_at heights.now ty }
{
    match ty {
        TypeRef::Prim(_) => 0,
        TypeRef::User(i) => match heights.get(i as usize) {
            Some(height) => *height,
            None => 0,
        },
    }
}

/// The greatest height among the fields, or `from` where that is greater.
fn highest_field(heights: &[u32], fields: &[Field], from: u32) -> u32
    ensures { result ≡ max from (greatest (map (height_at heights.now) (field_types fields.now))) }
{
    let mut most = from;
    for field in fields {
        most = most.max(height_at(heights, field.ty));
    }
    most
}

/// The greatest height among the fields of the variants.
fn highest_of_variants(heights: &[u32], variants: &[Variant]) -> u32
    ensures { result ≡ greatest (map (height_at heights.now) (variant_types variants.now)) }
{
    let mut most = 0;
    for variant in variants {
        most = highest_field(heights, variant.fields.as_slice(), most);
    }
    most
}

/// The height of a type, from the heights so far of what it contains.
fn height_over(heights: &[u32], def: &TypeDef) -> u32
    ensures { result ≡ step heights.now def.now }
{
    let most = match def {
        TypeDef::Struct { fields, .. } => highest_field(heights, fields.as_slice(), 0),
        TypeDef::Array { elem, .. } => height_at(heights, *elem),
        TypeDef::Enum { variants, .. } => highest_of_variants(heights, variants.as_slice()),
        _ => 0,
    };
    most.saturating_add(1).min(257)
}

/// The heights of all types, from those so far.
fn next_heights(alloc: Global, heights: &[u32], types: &[TypeDef]) -> Result<Vec<u32>, AllocError>
    ensures { IfOk result (λ v. v.items ≡ map (step heights.now) types.now) }
{
    let mut next = Vec::with_capacity(alloc, types.len())?;
    for def in types {
        next.push(height_over(heights, def))?;
    }
    Ok(next)
}

/// A height of 0 for each type.
fn zeros(alloc: Global, types: &[TypeDef]) -> Result<Vec<u32>, AllocError>
    ensures { IfOk result (λ v. v.items ≡ map (λ _. 0) types.now) }
{
    let mut next = Vec::with_capacity(alloc, types.len())?;
    for _def in types {
        next.push(0)?;
    }
    Ok(next)
}

/// Whether the two lists are the same.
fn same(a: &[u32], b: &[u32]) -> bool
    ensures { IsTrue result → a.now ≡ b.now }
{
    a == b
}

/// How many types the longest chain from each type has, up to 257, by rounds until one changes
/// nothing.
#[tactic(auto, using(crate::proofs::Chained::heights_next, crate::proofs::Chained::settled))]
fn all_heights(alloc: Global, types: &[TypeDef]) -> Result<Vec<u32>, AllocError>
    ensures { IfOk result (λ v. v.items ≡ heights types.now 257) }
{
    let mut found = zeros(alloc, types)?;
    for _round in 0..257_u32 {
        let next = next_heights(alloc, found.as_slice(), types)?;
        if same(next.as_slice(), found.as_slice()) {
            return Ok(found);
        }
        found = next;
    }
    Ok(found)
}

/// The first place with a height of 257 or more.
fn first_high(heights: &[u32]) -> Option<usize>
    ensures { IsFirst (λ i. slice_index_or heights.now i 0 < 257) (length heights.now) result }
{
    for (i, height) in heights.iter().enumerate() {
        if *height >= 257 {
            return Some(i);
        }
    }
    None
}

/// The first type of which law 2 is false.
fn first_2(alloc: Global, types: &[TypeDef]) -> Result<Option<usize>, AllocError>
    ensures { IfOk result (IsFirst (IsShallow types.now) (length types.now)) }
{
    let heights = all_heights(alloc, types)?;
    Ok(first_high(heights.as_slice()))
}

/// Law 2: no type begins a chain of more than 256 types.
pub fn law_2(alloc: Global, set: &Set) -> Result<(), CheckErr>
    ensures { Found set.now 2 (Law2 set.now) result }
{
    let def = first_2(alloc, set.types.as_slice())?;
    breach(2, true, def, None, None)
}

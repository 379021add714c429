//! Law 11: types stand after the nameless types that they refer to.
ghost use Rattle.std.specs.Prelude.{IfOk, length};
ghost use Rattle.std.specs.Bool.{Decides};
ghost use Rattle.std.specs.List.{All, HoldsAt};
ghost use Rattle.layout_set.specs.Found.{IsFirst, Found};
ghost use Rattle.layout_set.specs.Law11.{IsNameless, StandsBefore, StandsAfterNameless, Law11};

use crate::references::references;
use layout_set::breach::breach;
use layout_set::{CheckErr, Set, TypeDef, TypeRef};
use std::alloc::{AllocError, Global};

/// Whether the type has no name of its own.
fn is_nameless(def: &TypeDef) -> bool
    ensures { Decides result (IsNameless def.now) }
{
    matches!(
        def,
        TypeDef::Thin { .. } | TypeDef::Array { .. } | TypeDef::FnPtr
    )
}

/// Whether the type that is referred to has a name, or is before place `i`.
fn stands_before(types: &[TypeDef], i: usize, ty: TypeRef) -> bool
    ensures { Decides result (StandsBefore types.now i ty) }
{
    let TypeRef::User(j) = ty else {
        return true;
    };
    let place = j as usize;
    match types.get(place) {
        Some(def) => place < i || !is_nameless(def),
        None => true,
    }
}

/// Whether each type that is referred to has a name, or is before place `i`.
fn all_before(types: &[TypeDef], i: usize, found: &[TypeRef]) -> bool
    ensures { Decides result (All (StandsBefore types.now i) found.now) }
{
    for ty in found {
        if !stands_before(types, i, *ty) {
            return false;
        }
    }
    true
}

/// Whether the type at place `i` is after the nameless types that it refers to.
fn stands_after(
    alloc: Global,
    types: &[TypeDef],
    i: usize,
    def: &TypeDef,
) -> Result<bool, AllocError>
    ensures { IfOk result (λ kept. Decides kept (StandsAfterNameless types.now i def.now)) }
{
    let found = references(alloc, def)?;
    Ok(all_before(types, i, found.as_slice()))
}

/// The first type of which law 11 is false.
fn first_11(alloc: Global, types: &[TypeDef]) -> Result<Option<usize>, AllocError>
    ensures { IfOk result (IsFirst (λ i. HoldsAt (StandsAfterNameless types.now i) types.now i) (length types.now)) }
{
    for (i, def) in types.iter().enumerate() {
        if !stands_after(alloc, types, i, def)? {
            return Ok(Some(i));
        }
    }
    Ok(None)
}

/// Law 11: a type stands after the nameless types that it refers to.
pub fn law_11(alloc: Global, set: &Set) -> Result<(), CheckErr>
    ensures { Found set.now 11 (Law11 set.now) result }
{
    let def = first_11(alloc, set.types.as_slice())?;
    breach(11, true, def, None, None)
}

//! Law 12: how scopes nest.
ghost use Rattle.std.specs.Prelude.{◌≡◌, ◌++◌, ◌≤◌, OnOk, IfOk, length, take};
ghost use Rattle.std.specs.Bool.{Decides};
ghost use Rattle.std.specs.List.{All, HoldsAt};
ghost use Rattle.layout_set.specs.Found.{IsFirst, Found};
ghost use Rattle.layout_set.specs.Law12.{AreNested, HasNestedScopes, HasOneZone, IsInside, Law12};
ghost use Rattle.layout_func_laws.specs.OpenScopes.{FitsOpen, LieInOuter, MayBeSoDeep};

use layout_set::breach::breach;
use layout_set::{CheckErr, Func, Scope, Set, Zone};
use std::alloc::{AllocError, Global};

const MOST_DEEP: usize = 200;

/// Whether a scope may be so deep where so many are open.
fn may_be_so_deep(count: usize, depth: usize) -> bool
    ensures { Decides result (MayBeSoDeep count depth) }
{
    depth <= count && depth <= MOST_DEEP && (count == 0 || depth > 0)
}

/// Whether the scope has one zone, and that zone is not empty.
fn has_one_zone(scope: &Scope) -> bool
    ensures { Decides result (HasOneZone scope.now) }
{
    match scope.zones.as_slice() {
        [zone] => zone.lo < zone.hi,
        _ => false,
    }
}

/// Whether each zone is inside the outer one.
fn all_inside(outer: Zone, zones: &[Zone]) -> bool
    ensures { Decides result (All (IsInside outer) zones.now) }
{
    for zone in zones {
        if zone.lo < outer.lo || outer.hi < zone.hi {
            return false;
        }
    }
    true
}

/// Whether the zones lie inside that of the open scope around them, if there is one.
fn lie_in_outer(around: &[Zone], depth: usize, zones: &[Zone]) -> bool
    requires { depth ≤ length around.now }
    ensures { Decides result (LieInOuter around.now depth zones.now) }
{
    if depth == 0 {
        return true;
    }
    all_inside(around[depth - 1], zones)
}

/// Whether the scope may stand where scopes with these zones are open, the body's first.
fn fits_open(around: &[Zone], scope: &Scope) -> bool
    ensures { Decides result (FitsOpen around.now scope.now) }
{
    let depth = scope.depth as usize;
    if !may_be_so_deep(around.len(), depth) {
        return false;
    }
    has_one_zone(scope) && lie_in_outer(around, depth, scope.zones.as_slice())
}

/// Closes the scopes that are as deep as this one or deeper, and opens it.
fn open_scope(around: &mut Vec<Zone>, scope: &Scope) -> Result<(), AllocError>
    ensures { OnOk result (around.new.items ≡ take scope.now.depth around.old.items ++ scope.now.zones) }
{
    around.truncate(scope.depth as usize);
    around.extend_from_slice(scope.zones.as_slice())?;
    Ok(())
}

/// Whether the scopes of a function nest.
fn are_nested(alloc: Global, scopes: &[Scope]) -> Result<bool, AllocError>
    ensures { IfOk result (λ nested. Decides nested (AreNested scopes.now)) }
{
    let mut around = Vec::new(alloc);
    for scope in scopes {
        if !fits_open(around.as_slice(), scope) {
            return Ok(false);
        }
        open_scope(&mut around, scope)?;
    }
    Ok(!scopes.is_empty())
}

/// The first function of which law 12 is false.
fn first_12(alloc: Global, funcs: &[Func]) -> Result<Option<usize>, AllocError>
    ensures { IfOk result (IsFirst (HoldsAt HasNestedScopes funcs.now) (length funcs.now)) }
{
    for (i, func) in funcs.iter().enumerate() {
        if !are_nested(alloc, func.scopes.as_slice())? {
            return Ok(Some(i));
        }
    }
    Ok(None)
}

/// Law 12: the scopes of each function nest, each with one zone.
pub fn law_12(alloc: Global, set: &Set) -> Result<(), CheckErr>
    ensures { Found set.now 12 (Law12 set.now) result }
{
    let func = first_12(alloc, set.funcs.as_slice())?;
    breach(12, true, None, None, func)
}

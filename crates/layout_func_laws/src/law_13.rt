//! Law 13: where variables are.
ghost use Rattle.std.specs.Prelude.{length};
ghost use Rattle.std.specs.Bool.{Decides};
ghost use Rattle.std.specs.List.{HoldsAt};
ghost use Rattle.layout_set.specs.Found.{IsFirst, Found};
ghost use Rattle.layout_set.specs.Law13.{IsPlaced, HasPlacedVars, HasPlacedScopes, Law13};
ghost use Rattle.layout_set.specs.Sizes.{AreSmall};

use crate::entries::{are_entries, rise};
use layout_set::breach::breach;
use layout_set::{CheckErr, Func, Scope, Set, TypeDef, Var, Zone, small_size};

/// Whether the entries of the variable keep law 13.
fn is_placed(ptr: u8, types: &[TypeDef], zones: &[Zone], var: &Var) -> bool
    requires { AreSmall ptr types.now }
    ensures { Decides result (IsPlaced ptr types.now zones.now var.now) }
{
    let bytes = small_size(ptr, types, var.ty);
    are_entries(bytes, zones, var.entries.as_slice()) && rise(var.entries.as_slice())
}

/// Whether each variable of the scope keeps law 13.
fn has_placed_vars(ptr: u8, types: &[TypeDef], scope: &Scope) -> bool
    requires { AreSmall ptr types.now }
    ensures { Decides result (HasPlacedVars ptr types.now scope.now) }
{
    let zones = scope.zones.as_slice();
    for var in scope.vars.as_slice() {
        if !is_placed(ptr, types, zones, var) {
            return false;
        }
    }
    true
}

/// Whether each variable of the function keeps law 13.
fn has_placed_scopes(ptr: u8, types: &[TypeDef], func: &Func) -> bool
    requires { AreSmall ptr types.now }
    ensures { Decides result (HasPlacedScopes ptr types.now func.now) }
{
    for scope in func.scopes.as_slice() {
        if !has_placed_vars(ptr, types, scope) {
            return false;
        }
    }
    true
}

/// The first function of which law 13 is false.
fn first_13(ptr: u8, types: &[TypeDef], funcs: &[Func]) -> Option<usize>
    requires { AreSmall ptr types.now }
    ensures { IsFirst (HoldsAt (HasPlacedScopes ptr types.now) funcs.now) (length funcs.now) result }
{
    for (i, func) in funcs.iter().enumerate() {
        if !has_placed_scopes(ptr, types, func) {
            return Some(i);
        }
    }
    None
}

/// Law 13: the entries of each variable rise, lie in its scope, and tell places that can hold it.
pub fn law_13(set: &Set) -> Result<(), CheckErr>
    requires { AreSmall set.now.target.ptr set.now.types }
    ensures { Found set.now 13 (Law13 set.now) result }
{
    let func = first_13(set.target.ptr, set.types.as_slice(), set.funcs.as_slice());
    breach(13, true, None, None, func)
}

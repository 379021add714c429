//! What CodeView carries of a set.
ghost use Rattle.std.specs.Prelude.{◌≡◌, IfOk, map};
ghost use Rattle.layout_carried.specs.Carried.{carried_static, carried_var, carried_scope, carried_func, carried};
ghost use Rattle.layout_carried.specs.ShowsSame.{ShowsSame};
ghost use Rattle.layout_set.specs.IsSet.{IsSet};
ghost use Rattle.layout_set.specs.Laws.{IsLawful};

use crate::carried_places::carried_entries;
use crate::carried_types::{carried_ref, carried_types};
use layout_set::{Func, Scope, Set, Static, Var, Zone};
use rv_io::{List, Memory};
use std::alloc::Global;

/// The part of a lawful set that CodeView carries.
pub fn cv_part(alloc: Global, set: &Set) -> Result<Set, Memory>
    requires { IsLawful set.now }
    ensures part { IfOk result (λ part. part ≡ carried set.now) }

    // It shows what the set shows of each static, and of each variable where it carries the entry.
    ensures same { IfOk result (ShowsSame set.now) }

    // It is lawful, and its names are Rust's or raw texts where those of the set are.
    ensures lawful { IfOk result IsLawful }
    ensures named { IsSet set.now → IfOk result IsSet }
{
    let part = carried_set(alloc, set)?;
    Ok(part)
}

/// The set with what CodeView carries of its types, statics and functions.
fn carried_set(alloc: Global, set: &Set) -> Result<Set, Memory>
    ensures { IfOk result (λ part. part ≡ carried set.now) }
{
    let types = carried_types(alloc, set.target.ptr, set.types.as_slice())?;
    let statics = carried_statics(alloc, set.target.ptr, set.statics.as_slice())?;
    Ok(Set {
        target: set.target,
        types,
        statics,
        funcs: carried_funcs(alloc, set.target.ptr, set.funcs.as_slice())?,
    })
}

/// The static as CodeView carries it.
fn carried_static(alloc: Global, pointer_size: u8, fixed: &Static) -> Result<Static, Memory>
    ensures { IfOk result (λ s. s ≡ carried_static pointer_size fixed.now) }
{
    Ok(Static {
        name: fixed.name.copy(alloc)?,
        ty: carried_ref(pointer_size, fixed.ty),
        addr: fixed.addr,
    })
}

/// The statics as CodeView carries them.
fn carried_statics(
    alloc: Global,
    pointer_size: u8,
    statics: &[Static],
) -> Result<List<Static>, Memory>
    ensures { IfOk result (λ found. found ≡ map (carried_static pointer_size) statics.now) }
{
    let mut found = List::new(alloc);
    for fixed in statics {
        found.push(carried_static(alloc, pointer_size, fixed)?)?;
    }
    Ok(found)
}

/// The variable with its carried type and the entries that CodeView carries.
fn carried_var(alloc: Global, pointer_size: u8, var: &Var) -> Result<Var, Memory>
    ensures { IfOk result (λ v. v ≡ carried_var pointer_size var.now) }
{
    let name = var.name.copy(alloc)?;
    Ok(Var {
        name,
        ty: carried_ref(pointer_size, var.ty),
        param: var.param,
        entries: carried_entries(alloc, var.entries.as_slice())?,
    })
}

/// The variables as CodeView carries them.
fn carried_vars(alloc: Global, pointer_size: u8, vars: &[Var]) -> Result<List<Var>, Memory>
    ensures { IfOk result (λ found. found ≡ map (carried_var pointer_size) vars.now) }
{
    let mut found = List::new(alloc);
    for var in vars {
        found.push(carried_var(alloc, pointer_size, var)?)?;
    }
    Ok(found)
}

/// The same zones, in a list of their own.
fn copy_zones(alloc: Global, zones: &[Zone]) -> Result<List<Zone>, Memory>
    ensures { IfOk result (λ found. found ≡ zones.now) }
{
    Ok(List::from_vec(Vec::from_slice(alloc, zones)?))
}

/// The scope with its variables as CodeView carries them.
fn carried_scope(alloc: Global, pointer_size: u8, scope: &Scope) -> Result<Scope, Memory>
    ensures { IfOk result (λ s. s ≡ carried_scope pointer_size scope.now) }
{
    let zones = copy_zones(alloc, scope.zones.as_slice())?;
    Ok(Scope {
        depth: scope.depth,
        zones,
        vars: carried_vars(alloc, pointer_size, scope.vars.as_slice())?,
    })
}

/// The scopes as CodeView carries them.
fn carried_scopes(alloc: Global, pointer_size: u8, scopes: &[Scope]) -> Result<List<Scope>, Memory>
    ensures { IfOk result (λ found. found ≡ map (carried_scope pointer_size) scopes.now) }
{
    let mut found = List::new(alloc);
    for scope in scopes {
        found.push(carried_scope(alloc, pointer_size, scope)?)?;
    }
    Ok(found)
}

/// The function without its frame, with its scopes as CodeView carries them.
fn carried_func(alloc: Global, pointer_size: u8, func: &Func) -> Result<Func, Memory>
    ensures { IfOk result (λ f. f ≡ carried_func pointer_size func.now) }
{
    let name = func.name.copy(alloc)?;
    Ok(Func {
        name,
        frame: None,
        scopes: carried_scopes(alloc, pointer_size, func.scopes.as_slice())?,
    })
}

/// The functions as CodeView carries them.
fn carried_funcs(alloc: Global, pointer_size: u8, funcs: &[Func]) -> Result<List<Func>, Memory>
    ensures { IfOk result (λ found. found ≡ map (carried_func pointer_size) funcs.now) }
{
    let mut found = List::new(alloc);
    for func in funcs {
        found.push(carried_func(alloc, pointer_size, func)?)?;
    }
    Ok(found)
}

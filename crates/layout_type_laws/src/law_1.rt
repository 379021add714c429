//! Law 1: references are within the types of the set.
ghost use Rattle.std.specs.Prelude.{IfOk, length};
ghost use Rattle.std.specs.Bool.{Decides};
ghost use Rattle.std.specs.List.{All, HoldsAt};
ghost use Rattle.layout_set.specs.Found.{IsFirst, Found};
ghost use Rattle.layout_set.specs.Law1.{IsWithin, RefersWithin, HasTypeWithin, VarWithin, VarsWithin, HasVarsWithin, Law1};

use crate::references::references;
use layout_set::breach::breach;
use layout_set::{CheckErr, Func, Scope, Set, Static, TypeDef, TypeRef, Var};
use std::alloc::{AllocError, Global};

/// Whether the reference is to a primitive, or to one of so many types.
fn is_within(count: usize, ty: TypeRef) -> bool
    ensures { Decides result (IsWithin count ty) }
{
    match ty {
        TypeRef::Prim(_) => true,
        TypeRef::User(i) => (i as usize) < count,
    }
}

/// Whether each reference is to a primitive, or to one of so many types.
fn are_within(count: usize, types: &[TypeRef]) -> bool
    ensures { Decides result (All (IsWithin count) types.now) }
{
    for ty in types {
        if !is_within(count, *ty) {
            return false;
        }
    }
    true
}

/// Whether the type refers to primitives and to so many types alone.
fn refers_within(alloc: Global, count: usize, def: &TypeDef) -> Result<bool, AllocError>
    ensures { IfOk result (λ kept. Decides kept (RefersWithin count def.now)) }
{
    let found = references(alloc, def)?;
    Ok(are_within(count, found.as_slice()))
}

/// The first type of which law 1 is false.
fn first_def_1(alloc: Global, count: usize, types: &[TypeDef]) -> Result<Option<usize>, AllocError>
    ensures { IfOk result (IsFirst (HoldsAt (RefersWithin count) types.now) (length types.now)) }
{
    for (i, def) in types.iter().enumerate() {
        if !refers_within(alloc, count, def)? {
            return Ok(Some(i));
        }
    }
    Ok(None)
}

/// The first static of which law 1 is false.
fn first_static_1(count: usize, statics: &[Static]) -> Option<usize>
    ensures { IsFirst (HoldsAt (HasTypeWithin count) statics.now) (length statics.now) result }
{
    for (i, fixed) in statics.iter().enumerate() {
        if !is_within(count, fixed.ty) {
            return Some(i);
        }
    }
    None
}

/// Whether each variable's type is a primitive, or one of so many types.
fn vars_within(count: usize, vars: &[Var]) -> bool
    ensures { Decides result (All (VarWithin count) vars.now) }
{
    for var in vars {
        if !is_within(count, var.ty) {
            return false;
        }
    }
    true
}

/// Whether each scope's variables are of primitives, or of so many types.
fn has_vars_within(count: usize, scopes: &[Scope]) -> bool
    ensures { Decides result (All (VarsWithin count) scopes.now) }
{
    for scope in scopes {
        if !vars_within(count, scope.vars.as_slice()) {
            return false;
        }
    }
    true
}

/// The first function of which law 1 is false.
fn first_func_1(count: usize, funcs: &[Func]) -> Option<usize>
    ensures { IsFirst (HoldsAt (HasVarsWithin count) funcs.now) (length funcs.now) result }
{
    for (i, func) in funcs.iter().enumerate() {
        if !has_vars_within(count, func.scopes.as_slice()) {
            return Some(i);
        }
    }
    None
}

/// Law 1: each reference is within the types.
pub fn law_1(alloc: Global, set: &Set) -> Result<(), CheckErr>
    ensures { Found set.now 1 (Law1 set.now) result }
{
    let types = set.types.as_slice();
    let def = first_def_1(alloc, types.len(), types)?;
    let fixed = first_static_1(types.len(), set.statics.as_slice());
    let func = first_func_1(types.len(), set.funcs.as_slice());
    breach(1, true, def, fixed, func)
}

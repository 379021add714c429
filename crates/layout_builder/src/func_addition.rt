//! Functions with one scope, variable or entry more.
ghost use Rattle.std.specs.Prelude.{◌≡◌, OnOk};
ghost use Rattle.layout_builder.specs.Additions.{with_last, with_scope, with_var, with_entry, with_var_in_func, with_entry_in_scope, with_entry_in_func};

use layout_set::{Entry, Func, Scope, Var};
use rv_io::{List, Memory};

/// Adds the scope to the last function.
pub(crate) fn add_scope(funcs: &mut List<Func>, scope: Scope) -> Result<(), Memory>
    ensures { OnOk result (funcs.new ≡ with_last (with_scope scope) funcs.old) }
{
    match funcs.last_mut() {
        Some(func) => func.scopes.push(scope),
        None => Ok(()),
    }
}

/// Adds the variable to the last scope of the last function.
pub(crate) fn add_var(funcs: &mut List<Func>, var: Var) -> Result<(), Memory>
    ensures { OnOk result (funcs.new ≡ with_last (with_var_in_func var) funcs.old) }
{
    match funcs.last_mut() {
        Some(func) => add_var_to_scopes(&mut func.scopes, var),
        None => Ok(()),
    }
}

/// Adds the variable to the last scope.
fn add_var_to_scopes(scopes: &mut List<Scope>, var: Var) -> Result<(), Memory>
    ensures { OnOk result (scopes.new ≡ with_last (with_var var) scopes.old) }
{
    match scopes.last_mut() {
        Some(scope) => scope.vars.push(var),
        None => Ok(()),
    }
}

/// Adds the entry to the last variable of the last scope of the last function.
pub(crate) fn add_entry(funcs: &mut List<Func>, entry: Entry) -> Result<(), Memory>
    ensures { OnOk result (funcs.new ≡ with_last (with_entry_in_func entry) funcs.old) }
{
    match funcs.last_mut() {
        Some(func) => add_entry_to_scopes(&mut func.scopes, entry),
        None => Ok(()),
    }
}

/// Adds the entry to the last variable of the last scope.
fn add_entry_to_scopes(scopes: &mut List<Scope>, entry: Entry) -> Result<(), Memory>
    ensures { OnOk result (scopes.new ≡ with_last (with_entry_in_scope entry) scopes.old) }
{
    match scopes.last_mut() {
        Some(scope) => add_entry_to_vars(&mut scope.vars, entry),
        None => Ok(()),
    }
}

/// Adds the entry to the last variable.
fn add_entry_to_vars(vars: &mut List<Var>, entry: Entry) -> Result<(), Memory>
    ensures { OnOk result (vars.new ≡ with_last (with_entry entry) vars.old) }
{
    match vars.last_mut() {
        Some(var) => var.entries.push(entry),
        None => Ok(()),
    }
}

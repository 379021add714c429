//! Law 14: how large a set is. Each count stands still at the end of its type.
ghost use Rattle.std.specs.Prelude.{◌≡◌, ◌-◌, ◌^◌, min, IfOk};
ghost use Rattle.std.specs.Bool.{Decides};
ghost use Rattle.std.specs.List.{sum_by};
ghost use Rattle.layout_set.specs.Found.{Found};
ghost use Rattle.layout_set.specs.Counts.{scope_vars, func_vars, variable_count, pieces_of, entry_ranges, var_ranges, scope_ranges, func_ranges, range_count};
ghost use Rattle.layout_set.specs.Law14.{IsBounded, HasFewRanges, IsSmall, Law14};

use crate::distances::{code_is_compact, first_without_address, statics_are_close};
use crate::parts::part_count;
use layout_set::breach::breach;
use layout_set::{CheckErr, Entry, Func, Loc, Scope, Set, Var};
use std::alloc::{AllocError, Global};

const MOST_TYPES: usize = 20_000;

const MOST_PARTS: usize = 40_000;

const MOST_VARIABLES: usize = 20_000;

const MOST_RANGES: u128 = 1_000_000;

/// How many variables the scopes have. The count saturates.
fn count_vars(scopes: &[Scope]) -> usize
    ensures { result ≡ min (sum_by scope_vars scopes.now) (2 ^ 64 - 1) }
{
    let mut count: usize = 0;
    for scope in scopes {
        count = count.saturating_add(scope.vars.as_slice().len());
    }
    count
}

/// How many variables the functions have. The count saturates.
fn count_func_vars(funcs: &[Func]) -> usize
    ensures { result ≡ min (sum_by func_vars funcs.now) (2 ^ 64 - 1) }
{
    let mut count: usize = 0;
    for func in funcs {
        count = count.saturating_add(count_vars(func.scopes.as_slice()));
    }
    count
}

/// Statics, and the variables of functions.
fn variable_count(set: &Set) -> usize
    ensures { result ≡ min (variable_count set.now) (2 ^ 64 - 1) }
{
    let statics = set.statics.as_slice().len();
    statics.saturating_add(count_func_vars(set.funcs.as_slice()))
}

/// Whether the set has no more types, parts and variables than law 14 permits.
fn is_bounded(set: &Set) -> bool
    ensures { Decides result (IsBounded set.now) }
{
    set.types.as_slice().len() <= MOST_TYPES
        && part_count(set) <= MOST_PARTS
        && variable_count(set) <= MOST_VARIABLES
}

/// How many pieces a location has, where a whole counts as one.
fn pieces_of(loc: &Loc) -> usize
    ensures { result ≡ pieces_of loc.now }
{
    match loc {
        Loc::Whole(_) => 1,
        Loc::Pieces(pieces) => pieces.as_slice().len(),
    }
}

/// How many ranges CodeView takes for the entry. The count saturates.
fn entry_ranges(entry: &Entry) -> u128
    ensures { result ≡ min (entry_ranges entry.now) (2 ^ 128 - 1) }
{
    let len = entry.hi.saturating_sub(entry.lo);
    let ranges = (len as u128 + 61_439) / 61_440;
    ranges.saturating_mul(pieces_of(&entry.loc) as u128)
}

/// How many ranges CodeView takes for the entries. The count saturates.
fn count_ranges(entries: &[Entry]) -> u128
    ensures { result ≡ min (sum_by entry_ranges entries.now) (2 ^ 128 - 1) }
{
    let mut count: u128 = 0;
    for entry in entries {
        count = count.saturating_add(entry_ranges(entry));
    }
    count
}

/// How many ranges CodeView takes for the variables. The count saturates.
fn count_var_ranges(vars: &[Var]) -> u128
    ensures { result ≡ min (sum_by var_ranges vars.now) (2 ^ 128 - 1) }
{
    let mut count: u128 = 0;
    for var in vars {
        count = count.saturating_add(count_ranges(var.entries.as_slice()));
    }
    count
}

/// How many ranges CodeView takes for the scopes. The count saturates.
fn count_scope_ranges(scopes: &[Scope]) -> u128
    ensures { result ≡ min (sum_by scope_ranges scopes.now) (2 ^ 128 - 1) }
{
    let mut count: u128 = 0;
    for scope in scopes {
        count = count.saturating_add(count_var_ranges(scope.vars.as_slice()));
    }
    count
}

/// How many ranges CodeView takes for the functions. The count saturates.
fn range_count(funcs: &[Func]) -> u128
    ensures { result ≡ min (sum_by func_ranges funcs.now) (2 ^ 128 - 1) }
{
    let mut count: u128 = 0;
    for func in funcs {
        count = count.saturating_add(count_scope_ranges(func.scopes.as_slice()));
    }
    count
}

/// Whether CodeView takes at most a million ranges for the set.
fn has_few_ranges(set: &Set) -> bool
    ensures { Decides result (HasFewRanges set.now) }
{
    range_count(set.funcs.as_slice()) <= MOST_RANGES
}

/// Whether the set as a whole keeps law 14.
fn is_small(alloc: Global, set: &Set) -> Result<bool, AllocError>
    ensures { IfOk result (λ small. Decides small (IsSmall set.now)) }
{
    let few = is_bounded(set) && has_few_ranges(set);
    let close = statics_are_close(alloc, set.statics.as_slice())?;
    let compact = code_is_compact(alloc, set.funcs.as_slice())?;
    Ok(few && close && compact)
}

/// Law 14: the set is small, and statics have addresses.
pub fn law_14(alloc: Global, set: &Set) -> Result<(), CheckErr>
    ensures { Found set.now 14 (Law14 set.now) result }
{
    let whole = is_small(alloc, set)?;
    let fixed = first_without_address(set.statics.as_slice());
    breach(14, whole, None, fixed, None)
}

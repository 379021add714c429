//! How many parts a set has. Each count stands still at the end of its type.
ghost use Rattle.std.specs.Prelude.{◌≡◌, ◌-◌, ◌^◌, min};
ghost use Rattle.std.specs.List.{sum_by};
ghost use Rattle.layout_set.specs.Counts.{variant_parts, parts_of, place_parts, piece_parts, loc_parts, entry_parts, var_parts, scope_parts, func_parts, part_count};

use layout_set::{Entry, Func, Loc, Piece, Place, Scope, Set, TypeDef, Var, Variant};

/// Variants and their fields.
fn count_variants(variants: &[Variant]) -> usize
    ensures { result ≡ min (sum_by variant_parts variants.now) (2 ^ 64 - 1) }
{
    let mut count: usize = 0;
    for variant in variants {
        let fields = variant.fields.as_slice().len();
        count = count.saturating_add(fields.saturating_add(1));
    }
    count
}

/// How many parts a type has. The count saturates.
fn count_parts(def: &TypeDef) -> usize
    ensures { result ≡ min (parts_of def.now) (2 ^ 64 - 1) }
{
    match def {
        TypeDef::Struct { params, fields, .. } => {
            let count = params.as_slice().len();
            count.saturating_add(fields.as_slice().len())
        }
        TypeDef::CLike { cases, .. } => cases.as_slice().len(),
        TypeDef::Enum {
            params,
            variants,
            ..
        } => {
            let count = params.as_slice().len();
            count.saturating_add(count_variants(variants.as_slice()))
        }
        _ => 0,
    }
}

/// How many parts the types have. The count saturates.
fn count_types(types: &[TypeDef]) -> usize
    ensures { result ≡ min (sum_by parts_of types.now) (2 ^ 64 - 1) }
{
    let mut count: usize = 0;
    for def in types {
        count = count.saturating_add(count_parts(def));
    }
    count
}

/// How many operations a place has.
fn place_parts(place: &Place) -> usize
    ensures { result ≡ place_parts place.now }
{
    match place {
        Place::Expr(ops) => ops.as_slice().len(),
        _ => 0,
    }
}

/// How many parts a piece is, itself and its operations. The count saturates.
fn piece_parts(piece: &Piece) -> usize
    ensures { result ≡ min (piece_parts piece.now) (2 ^ 64 - 1) }
{
    match &piece.place {
        Some(place) => place_parts(place).saturating_add(1),
        None => 1,
    }
}

/// How many parts the pieces are. The count saturates.
fn count_pieces(pieces: &[Piece]) -> usize
    ensures { result ≡ min (sum_by piece_parts pieces.now) (2 ^ 64 - 1) }
{
    let mut count: usize = 0;
    for piece in pieces {
        count = count.saturating_add(piece_parts(piece));
    }
    count
}

/// How many parts a location has. The count saturates.
fn loc_parts(loc: &Loc) -> usize
    ensures { result ≡ min (loc_parts loc.now) (2 ^ 64 - 1) }
{
    match loc {
        Loc::Whole(place) => place_parts(place),
        Loc::Pieces(pieces) => count_pieces(pieces.as_slice()),
    }
}

/// How many parts an entry is, itself and those of its location. The count saturates.
fn entry_parts(entry: &Entry) -> usize
    ensures { result ≡ min (entry_parts entry.now) (2 ^ 64 - 1) }
{
    loc_parts(&entry.loc).saturating_add(1)
}

/// How many parts the entries are. The count saturates.
fn count_entries(entries: &[Entry]) -> usize
    ensures { result ≡ min (sum_by entry_parts entries.now) (2 ^ 64 - 1) }
{
    let mut count: usize = 0;
    for entry in entries {
        count = count.saturating_add(entry_parts(entry));
    }
    count
}

/// How many parts the variables have. The count saturates.
fn count_vars(vars: &[Var]) -> usize
    ensures { result ≡ min (sum_by var_parts vars.now) (2 ^ 64 - 1) }
{
    let mut count: usize = 0;
    for var in vars {
        count = count.saturating_add(count_entries(var.entries.as_slice()));
    }
    count
}

/// How many parts a scope is, itself, its zones and its variables' entries. The count saturates.
fn scope_parts(scope: &Scope) -> usize
    ensures { result ≡ min (scope_parts scope.now) (2 ^ 64 - 1) }
{
    let zones = scope.zones.as_slice().len();
    let entries = count_vars(scope.vars.as_slice());
    zones.saturating_add(entries).saturating_add(1)
}

/// How many parts the scopes are. The count saturates.
fn count_scopes(scopes: &[Scope]) -> usize
    ensures { result ≡ min (sum_by scope_parts scopes.now) (2 ^ 64 - 1) }
{
    let mut count: usize = 0;
    for scope in scopes {
        count = count.saturating_add(scope_parts(scope));
    }
    count
}

/// How many parts the functions have. The count saturates.
fn count_funcs(funcs: &[Func]) -> usize
    ensures { result ≡ min (sum_by func_parts funcs.now) (2 ^ 64 - 1) }
{
    let mut count: usize = 0;
    for func in funcs {
        count = count.saturating_add(count_scopes(func.scopes.as_slice()));
    }
    count
}

/// Params, fields, cases, variants, scopes, zones, entries, pieces and operations.
pub(crate) fn part_count(set: &Set) -> usize
    ensures { result ≡ min (part_count set.now) (2 ^ 64 - 1) }
{
    let parts = count_types(set.types.as_slice());
    parts.saturating_add(count_funcs(set.funcs.as_slice()))
}

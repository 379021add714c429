//! How many types, parts and variables a line adds.
ghost use Rattle.std.specs.Prelude.{◌≡◌, ◌≤◌};
ghost use Rattle.layout_set.specs.Counts.{place_parts, piece_parts};
ghost use Rattle.layout_builder.specs.LineCounts.{line_types, line_parts, line_variables};

use layout_lines::Line;
use layout_set::{Piece, Place};

/// How many types: one or none.
pub fn types_in(line: &Line) -> usize
    ensures { result ≡ line_types line.now }
{
    match line {
        Line::Type(_) => 1,
        _ => 0,
    }
}

/// How many params, fields, cases, variants, scopes, zones, entries, pieces and operations.
pub fn parts_in(line: &Line) -> usize
    ensures { result ≡ line_parts line.now }
{
    match line {
        Line::Param(_) | Line::Field(_) | Line::Case(_) | Line::Variant(_, _) => 1,
        Line::Scope(scope) => 1 + scope.zones.as_slice().len(),
        Line::Whole(_, _, place) => 1 + place_parts(place),
        Line::Pieces(_, _, _) => 1,
        Line::Piece(piece) => piece_parts(piece),
        _ => 0,
    }
}

/// How many operations the place has, at most 64.
fn place_parts(place: &Place) -> usize
    ensures count { result ≡ place_parts place.now }
    ensures few { result ≤ 64 }
{
    match place {
        Place::Expr(ops) => ops.as_slice().len(),
        _ => 0,
    }
}

/// The piece with its operations.
fn piece_parts(piece: &Piece) -> usize
    ensures { result ≡ piece_parts piece.now }
{
    match &piece.place {
        None => 1,
        Some(place) => 1 + place_parts(place),
    }
}

/// How many variables, statics among them.
pub fn variables_in(line: &Line) -> usize
    ensures { result ≡ line_variables line.now }
{
    match line {
        Line::Static(_) | Line::Var(_) => 1,
        _ => 0,
    }
}

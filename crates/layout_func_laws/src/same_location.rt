//! Whether two locations are the same.
ghost use Rattle.std.specs.Prelude.{◌≡◌};
ghost use Rattle.std.specs.Bool.{Decides};

use crate::operations::{same_ops, same_reg};
use layout_set::{Loc, Piece, Place};

/// Whether the two places are the same.
fn same_place(a: &Place, b: &Place) -> bool
    ensures { Decides result (a.now ≡ b.now) }
{
    match (a, b) {
        (Place::Reg(x), Place::Reg(y)) => same_reg(*x, *y),
        (Place::Mem(x, n), Place::Mem(y, m)) => same_reg(*x, *y) && *n == *m,
        (Place::Fixed(x), Place::Fixed(y)) => *x == *y,
        (Place::Value(x), Place::Value(y)) => x.as_bytes() == y.as_bytes(),
        (Place::Expr(x), Place::Expr(y)) => same_ops(x.as_slice(), y.as_slice()),
        _ => false,
    }
}

/// Whether the two pieces are the same.
fn same_piece(a: &Piece, b: &Piece) -> bool
    ensures { Decides result (a.now ≡ b.now) }
{
    if a.size != b.size {
        return false;
    }
    match (&a.place, &b.place) {
        (Some(x), Some(y)) => same_place(x, y),
        (None, None) => true,
        _ => false,
    }
}

/// Whether the two lists of pieces are the same.
#[tactic(auto, using(std::proofs::lemmas::List::same_lists))]
fn same_pieces(a: &[Piece], b: &[Piece]) -> bool
    ensures { Decides result (a.now ≡ b.now) }
{
    if a.len() != b.len() {
        return false;
    }
    for i in 0..a.len() {
        if !same_piece(&a[i], &b[i]) {
            return false;
        }
    }
    true
}

/// Whether two locations are the same. Takes no memory.
pub(crate) fn same_loc(a: &Loc, b: &Loc) -> bool
    ensures { Decides result (a.now ≡ b.now) }
{
    match (a, b) {
        (Loc::Whole(x), Loc::Whole(y)) => same_place(x, y),
        (Loc::Pieces(x), Loc::Pieces(y)) => same_pieces(x.as_slice(), y.as_slice()),
        _ => false,
    }
}

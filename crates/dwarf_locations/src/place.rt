//! The place that operations say (DWARF 5, 2.6.1.1).
ghost use Rattle.std.specs.Prelude.{◌≡◌};
ghost use Rattle.dwarf_locations.specs.Places.{place_of};

use expr_bytes::Simple;
use layout_set::Place;

/// The place that is said; no operations say none.
pub(crate) fn place_of(said: Simple) -> Option<Place>
    ensures { result ≡ place_of said }
{
    match said {
        Simple::Empty => None,
        Simple::Reg(reg) => Some(Place::Reg(reg)),
        Simple::Mem(reg, n) => Some(Place::Mem(reg, n)),
        Simple::Fixed(address) => Some(Place::Fixed(address)),
        Simple::Value(bytes) => Some(Place::Value(bytes)),
        Simple::Ops(ops) => Some(Place::Expr(ops)),
    }
}

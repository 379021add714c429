//! The parts of an expression: pieces, and what follows them (DWARF 5, 2.6.1.2).
ghost use Rattle.std.specs.Prelude.{IfOk, IfErr};
ghost use Rattle.dwarf_locations.specs.Steps.{TakesPart, IsRefusedPart};

use crate::place::place_of;
use crate::size::read_size;
use expr_bytes::{Addrs, Frame, OpsErr, Simple};
use expr_reader::read_ops;
use layout_set::Piece;
use rv_bytes::Cut;
use std::alloc::Global;

/// A part of an expression.
#[derive(Drop)]
pub(crate) enum Part {
    /// A piece, with the operations of its place.
    Piece(Piece),
    /// What the operations say up to the end of the expression, with no piece after them.
    Last(Simple),
}

/// Reads the next part.
pub(crate) fn read_part(
    alloc: Global,
    cut: &mut Cut<'_>,
    frame: Frame,
    addrs: &Addrs<'_>,
) -> Result<Part, OpsErr>
    ensures taken { IfOk result (TakesPart frame addrs.now cut.old cut.new) }
    ensures refused { IfErr result (IsRefusedPart frame addrs.now cut.old) }
{
    let said = read_ops(alloc, cut, frame, addrs)?;
    if cut.left() == 0 {
        return Ok(Part::Last(said));
    }
    let size = read_size(cut)?;
    Ok(Part::Piece(Piece {
        size,
        place: place_of(said),
    }))
}

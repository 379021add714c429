//! The pieces of an expression (DWARF 5, 2.6.1.2).
ghost use Rattle.std.specs.Prelude.{◌≡◌, [], ◌∷◌, ◌++◌, IfOk, IfErr, OnOk};
ghost use Rattle.std.specs.List.{filter};
ghost use Rattle.dwarf_locations.specs.Pieces.{has_bytes};
ghost use Rattle.dwarf_locations.specs.Steps.{SayRest, IsRefusedRest};

use crate::leftover::check_nothing;
use crate::part::{Part, read_part};
use expr_bytes::{Addrs, Frame, OpsErr};
use layout_set::Piece;
use rv_bytes::Cut;
use rv_io::{List, Memory};
use std::alloc::Global;

/// Adds a piece, unless it has no bytes.
fn push_piece(pieces: &mut List<Piece>, piece: Piece) -> Result<(), Memory>
    ensures { OnOk result (pieces.new ≡ pieces.old ++ filter has_bytes (piece ∷ [])) }
{
    if piece.size != 0 {
        pieces.push(piece)?;
    }
    Ok(())
}

/// Reads the pieces after the first one; nothing follows the last.
pub(crate) fn read_rest(
    alloc: Global,
    cut: &mut Cut<'_>,
    first: Piece,
    frame: Frame,
    addrs: &Addrs<'_>,
) -> Result<List<Piece>, OpsErr>
    ensures said { IfOk result (SayRest frame addrs.now cut.old first) }
    ensures refused { IfErr result (IsRefusedRest frame addrs.now cut.old) }
{
    let mut pieces = List::new(alloc);
    push_piece(&mut pieces, first)?;
    loop {
        let mut run = cut.copy();
        match read_part(alloc, cut, frame, addrs)? {
            Part::Piece(piece) => push_piece(&mut pieces, piece)?,
            Part::Last(_) => {
                check_nothing(&mut run, frame, addrs)?;
                return Ok(pieces);
            }
        }
    }
}

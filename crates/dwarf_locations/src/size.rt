//! The operation that ends a piece (DWARF 5, 2.6.1.2).
ghost use Rattle.std.specs.Prelude.{◌≡◌, IfOk, IfErr};
ghost use Rattle.rv_bytes.specs.Reads.{Takes};
ghost use Rattle.rv_bytes.specs.Results.{Reads};
ghost use Rattle.rv_bytes.specs.declared.err.DwErr.{DwErr};
ghost use Rattle.dwarf_locations.specs.Pieces.{piece_size};
ghost use Rattle.dwarf_locations.specs.Steps.{fitting, read_coded_size, read_piece_size, IsRefusedSize};

use crate::rule;
use expr_bytes::{OpsErr, code, in_cut, moved};
use rv_bytes::{Cut, DwErr};

/// The refusal of the item that begins at a place, by the rule that it breaks.
fn refused(at: usize, rule: u8) -> DwErr
    ensures { result ≡ DwErr.Refused at rule }
{
    DwErr::Refused {
        offset: at as u64,
        rule,
    }
}

/// Reads a code, which is that of a piece, and a number. What is invalid is refused at its own place.
fn read_coded(cut: &mut Cut<'_>) -> Result<u64, DwErr>
    ensures { Reads (read_coded_size cut.old.at cut.old.rest) result cut.new }
{
    let op = cut.u8()?;
    if op != code::PIECE {
        return Err(refused(cut.at(), expr_bytes::rule::OPERATION));
    }
    Ok(cut.uleb()?)
}

/// The size of the piece whose operation begins at a place, if it has at most 32 bits.
fn fitting(size: u64, at: usize) -> Result<u32, DwErr>
    ensures { result ≡ fitting at size }
{
    match u32::try_from(size) {
        Ok(size) => Ok(size),
        Err(_) => Err(refused(at, rule::NO_FIT)),
    }
}

/// Reads the operation, as one item. What is invalid in it is refused where it begins.
fn read_item(cut: &mut Cut<'_>) -> Result<u32, DwErr>
    ensures { Reads (read_piece_size cut.old.at cut.old.rest) result cut.new }
{
    let at = cut.at();
    match read_coded(cut) {
        Ok(size) => fitting(size, at),
        Err(e) => Err(moved(e, at)),
    }
}

/// Reads the operation that ends a piece: its size, in bytes.
pub(crate) fn read_size(cut: &mut Cut<'_>) -> Result<u32, OpsErr>
    ensures taken { IfOk result (Takes piece_size cut.old cut.new) }
    ensures refused { IfErr result (IsRefusedSize cut.old) }
{
    match read_item(cut) {
        Ok(size) => Ok(size),
        Err(e) => Err(in_cut(e)),
    }
}

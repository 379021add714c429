//! Location expressions (DWARF 5, 2.6.1).
ghost use Rattle.std.specs.Prelude.{IfOk, IfErr};
ghost use Rattle.dwarf_locations.specs.Expressions.{SayLocation, IsRefusedLocation};

use crate::part::{Part, read_part};
use crate::pieces::read_rest;
use crate::place::place_of;
use expr_bytes::{Addrs, Frame, OpsErr};
use layout_set::Loc;
use rv_bytes::Cut;
use std::alloc::Global;

/// What a location expression says: one place, or pieces, one after the other; None where it has no
/// operations, and so says that the value is nowhere (DWARF 5, 2.6.1). A piece without operations has no
/// place, and a piece of 0 bytes is left out.
///
/// `bytes` are the whole expression, `frame` is the frame base of the function, and `addrs` has the addresses
/// that are named by an index. A refusal's `offset` is in bytes from the expression's start, at the first
/// operation that breaks a rule: 10 where the bytes end inside it, 11 where a LEB128 number is too wide, 31
/// where an index has no address, 34 where the size of a piece has more than 32 bits, 35 where it is none of
/// those that are read, or has another register or size, 36 where no place has it after those before it, or
/// it is the last and they say no place, or the first after the last piece, 47 where it counts from a frame
/// base that isn't known. Takes memory for the pieces and the operations.
pub fn read_loc(
    alloc: Global,
    bytes: &[u8],
    frame: Frame,
    addrs: &Addrs<'_>,
) -> Result<Option<Loc>, OpsErr>
    // The expression says this location, or none.
    ensures said { IfOk result (SayLocation frame addrs.now bytes.now) }

    // A refusal has its cause.
    ensures refused { IfErr result (IsRefusedLocation frame addrs.now bytes.now) }
{
    let mut cut = Cut::new(bytes);
    match read_part(alloc, &mut cut, frame, addrs)? {
        Part::Last(said) => Ok(place_of(said).map(Loc::Whole)),
        Part::Piece(first) => {
            let pieces = read_rest(alloc, &mut cut, first, frame, addrs)?;
            Ok(Some(Loc::Pieces(pieces)))
        }
    }
}

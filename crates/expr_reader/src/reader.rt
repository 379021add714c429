//! How the operations of one place are read (DWARF 5, 2.6.1).
ghost use Rattle.std.specs.Prelude.{map, IfOk, IfErr};
ghost use Rattle.expr_bytes.specs.Operations.{oper_of};
ghost use Rattle.expr_bytes.specs.Runs.{TakesPlace, IsRefusedPlace};
ghost use Rattle.expr_reader.specs.Nexts.{SaidBy, IsRefusedLast, IsRefusedOf};

use crate::next::{read_next, refused};
use crate::say::say_place;
use expr_bytes::{Addrs, Frame, Operation, OpsErr, Simple, ends, in_cut, rule};
use rv_bytes::{Cut, DwErr};
use rv_io::List;
use std::alloc::Global;

/// The place that the operations say, of which the last stands at a place; no operations say the empty place.
/// Operations that say none are refused there.
fn place_of(alloc: Global, opers: &[Operation<'_>], last: usize) -> Result<Simple, DwErr>
    ensures said { IfOk result (SaidBy (map oper_of opers.now)) }
    ensures refused { IfErr result (IsRefusedLast (map oper_of opers.now) last) }
{
    if opers.is_empty() {
        return Ok(Simple::Empty);
    }
    match say_place(alloc, opers)? {
        Some(place) => Ok(place),
        None => Err(refused(last, rule::ORDER)),
    }
}

/// The place that the operations say, up to where they end.
fn read_place(
    alloc: Global,
    cut: &mut Cut<'_>,
    frame: Frame,
    addrs: &Addrs<'_>,
) -> Result<Simple, DwErr>
    ensures taken { IfOk result (TakesPlace frame addrs.now cut.old cut.new) }
    ensures refused { IfErr result (IsRefusedOf frame addrs.now cut.old) }
{
    let mut opers = List::new(alloc);
    let mut last = cut.at();
    while !ends(cut) {
        last = read_next(alloc, cut, frame, addrs, &mut opers, last)?;
    }
    place_of(alloc, opers.as_slice(), last)
}

/// Reads the operations of one place, up to the end of the cut or up to a piece, which stays unread
/// (DWARF 5, 2.5, 2.6.1 and 7.7.1).
///
/// `frame` is the frame base of the function, and `addrs` has the addresses that are named by an index. No
/// operations, nop aside, are the empty place. A refusal's `offset` is the place in the cut where the first
/// operation begins that breaks a rule: 10 where the cut ends inside it, 11 where a LEB128 number is too
/// wide, 31 where an index has no address, 35 where it is none of those that are read, or has another
/// register or size, 36 where no place has it after those before it, or, for the last, where they say no
/// place, 47 where it counts from a frame base that isn't known. Where the cut stands after a refusal isn't
/// said.
pub fn read_ops(
    alloc: Global,
    cut: &mut Cut<'_>,
    frame: Frame,
    addrs: &Addrs<'_>,
) -> Result<Simple, OpsErr>
    // What is read is what the operations say, and the cut stands where they end.
    ensures taken { IfOk result (TakesPlace frame addrs.now cut.old cut.new) }

    // A refusal has its cause.
    ensures refused { IfErr result (IsRefusedPlace frame addrs.now cut.old) }
{
    match read_place(alloc, cut, frame, addrs) {
        Ok(place) => Ok(place),
        Err(e) => Err(in_cut(e)),
    }
}

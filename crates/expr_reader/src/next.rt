//! One operation more of a place (DWARF 5, 2.5 and 2.6.1).
ghost use Rattle.std.specs.Prelude.{◌≡◌, map, IfOk, IfErr};
ghost use Rattle.expr_bytes.specs.Operations.{oper_of};
ghost use Rattle.rv_bytes.specs.declared.err.DwErr.{DwErr};
ghost use Rattle.expr_reader.specs.Nexts.{GoesOn, IsRefusedAfter};

use crate::order::{begin_place, is_unframed};
use expr_bytes::{Addrs, Frame, Operation, read_operation, rule};
use rv_bytes::{Cut, DwErr};
use rv_io::List;
use std::alloc::Global;

/// The refusal of the operation at a place, by the rule that it breaks.
pub(crate) fn refused(at: usize, rule: u8) -> DwErr
    ensures { result ≡ DwErr.Refused at rule }
{
    DwErr::Refused {
        offset: at as u64,
        rule,
    }
}

/// Reads the next operation, after these, and adds it to them where it does something. What breaks a rule, by
/// itself or after these, is refused where it begins. The answer is where the last of them stands, as `last` was.
pub(crate) fn read_next<'a>(
    alloc: Global,
    cut: &mut Cut<'a>,
    frame: Frame,
    addrs: &Addrs<'_>,
    opers: &mut List<Operation<'a>>,
    last: usize,
) -> Result<usize, DwErr>
    ensures read { IfOk result (GoesOn frame addrs.now cut.old cut.new (map oper_of opers.old) (map oper_of opers.new) last) }
    ensures refused { IfErr result (IsRefusedAfter frame addrs.now (map oper_of opers.old) cut.old) }
{
    let at = cut.at();
    match read_operation(cut, frame, addrs) {
        Ok(Some(oper)) => {
            opers.push(oper)?;
            if !begin_place(alloc, opers.as_slice())? {
                return Err(refused(at, rule::ORDER));
            }
            if is_unframed(oper) {
                return Err(refused(at, rule::FRAME));
            }
            Ok(at)
        }
        Ok(None) => Ok(last),
        Err(e) => Err(e),
    }
}

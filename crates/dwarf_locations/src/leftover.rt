//! Operations after the last piece (DWARF 5, 2.6.1.2).
ghost use Rattle.std.specs.Prelude.{IfOk, IfErr};
ghost use Rattle.dwarf_locations.specs.Steps.{AnswersFirst, StandsNone, IsRefusedFirst};

use expr_bytes::{Addrs, Frame, OpsErr, read_operation, rule};
use rv_bytes::{Cut, DwErr};

/// Where the first operation begins that does something; None where there is none before the end, or before
/// what is no operation.
fn first_operation(
    cut: &mut Cut<'_>,
    frame: Frame,
    addrs: &Addrs<'_>,
) -> Result<Option<usize>, OpsErr>
    ensures first { IfOk result (AnswersFirst frame addrs.now cut.old) }
    ensures memory { IfErr result (IsRefusedFirst frame addrs.now cut.old) }
{
    loop {
        let at = cut.at();
        match read_operation(cut, frame, addrs) {
            Ok(Some(_)) => return Ok(Some(at)),
            Ok(None) => {}
            Err(DwErr::Refused { .. }) => return Ok(None),
            Err(DwErr::Memory) => return Err(OpsErr::Memory),
        }
    }
}

/// Refuses the first operation that does something, if there is one.
pub(crate) fn check_nothing(
    cut: &mut Cut<'_>,
    frame: Frame,
    addrs: &Addrs<'_>,
) -> Result<(), OpsErr>
    ensures nothing { IfOk result (λ _. StandsNone frame addrs.now cut.old) }
    ensures refused { IfErr result (IsRefusedFirst frame addrs.now cut.old) }
{
    match first_operation(cut, frame, addrs)? {
        Some(at) => Err(OpsErr::Refused {
            offset: at,
            rule: rule::ORDER,
        }),
        None => Ok(()),
    }
}

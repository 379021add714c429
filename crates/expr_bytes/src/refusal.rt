//! Refusals.
ghost use Rattle.std.specs.Prelude.{◌≡◌};
ghost use Rattle.rv_bytes.specs.declared.err.DwErr.{DwErr};
ghost use Rattle.expr_bytes.specs.Readers.{moved, in_cut};

use crate::place::OpsErr;
use rv_bytes::DwErr;

/// The refusal of the item that begins at a place, by the rule that it breaks.
pub(crate) fn refused(at: usize, rule: u8) -> DwErr
    ensures { result ≡ DwErr.Refused at rule }
{
    DwErr::Refused {
        offset: at as u64,
        rule,
    }
}

/// The same refusal, of the item that begins at `at`.
pub fn moved(e: DwErr, at: usize) -> DwErr
    ensures { result ≡ moved at e }
{
    match e {
        DwErr::Refused { rule, .. } => refused(at, rule),
        DwErr::Memory => DwErr::Memory,
    }
}

/// The refusal as one of operations.
pub fn in_cut(e: DwErr) -> OpsErr
    ensures { result ≡ in_cut e }
{
    match e {
        DwErr::Refused { offset, rule } => OpsErr::Refused {
            offset: offset as usize,
            rule,
        },
        DwErr::Memory => OpsErr::Memory,
    }
}

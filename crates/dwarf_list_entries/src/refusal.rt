//! Refusals.
ghost use Rattle.std.specs.Prelude.{◌≡◌};
ghost use Rattle.rv_bytes.specs.declared.err.DwErr.{DwErr};
ghost use Rattle.dwarf_list_entries.specs.Readers.{moved};

use rv_bytes::DwErr;

/// The refusal of the item that begins at a place, by the rule that it breaks.
pub(crate) fn refused(at: usize, rule: u8) -> DwErr
    ensures { result ≡ DwErr.Refused at rule }
{
    DwErr::Refused {
        offset: at as u64,
        rule,
    }
}

/// The same refusal, of the item that begins at `at`.
pub(crate) fn moved(e: DwErr, at: usize) -> DwErr
    ensures { result ≡ moved at e }
{
    match e {
        DwErr::Refused { rule, .. } => refused(at, rule),
        DwErr::Memory => DwErr::Memory,
    }
}

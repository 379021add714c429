//! Why units can't be read.
ghost use Rattle.std.specs.Prelude.{◌≡◌};
ghost use Rattle.dwarf_units.specs.UnitReaders.{info_refusal, abbrev_refusal};
ghost use Rattle.dwarf_units.specs.declared.fault.UnitsErr.{UnitsErr};

use rv_bytes::DwErr;
use rv_io::Memory;
use thiserror::Error;

/// Why units are refused: where the first invalid item begins, in bytes from the section's start, and the
/// number of the rule that it breaks.
#[derive(Clone, Copy, Debug, PartialEq, Eq, Error)]
pub enum UnitsErr {
    /// The item at `offset` of `.debug_info` breaks a rule.
    #[error("offset {offset} of .debug_info breaks rule {rule}")]
    Info { offset: u64, rule: u8 },
    /// The item at `offset` of `.debug_abbrev` breaks a rule.
    #[error("offset {offset} of .debug_abbrev breaks rule {rule}")]
    Abbrev { offset: u64, rule: u8 },
    /// Memory has run out.
    #[error("out of memory")]
    Memory,
}

impl From<Memory> for UnitsErr {
    ghost from_gives = { λ _ d. d ≡ UnitsErr.Memory };

    fn from(_e: Memory) -> UnitsErr {
        UnitsErr::Memory
    }
}

/// The refusal of what lies in `.debug_info`.
pub(crate) fn in_info(e: DwErr) -> UnitsErr
    ensures { result ≡ info_refusal e }
{
    match e {
        DwErr::Refused { offset, rule } => UnitsErr::Info { offset, rule },
        DwErr::Memory => UnitsErr::Memory,
    }
}

/// The refusal of what lies in `.debug_abbrev`.
pub(crate) fn in_abbrev(e: DwErr) -> UnitsErr
    ensures { result ≡ abbrev_refusal e }
{
    match e {
        DwErr::Refused { offset, rule } => UnitsErr::Abbrev { offset, rule },
        DwErr::Memory => UnitsErr::Memory,
    }
}

//! Refusals.
ghost use Rattle.std.specs.Prelude.{◌≡◌};
ghost use Rattle.rv_bytes.specs.declared.err.DwErr.{DwErr};
ghost use Rattle.bundle_file.specs.Files.{in_bundle};

use layout_set::{ReadErr, Refusal, Section};
use rv_bytes::DwErr;

/// The refusal of the item that begins at a place, by the rule that it breaks.
pub(crate) fn refused(at: usize, rule: u8) -> DwErr
    ensures { result ≡ DwErr.Refused at rule }
{
    DwErr::Refused {
        offset: at as u64,
        rule,
    }
}

/// The refusal with its section, which is the bundle file.
pub(crate) fn in_bundle(e: DwErr) -> ReadErr
    ensures { result ≡ in_bundle e }
{
    match e {
        DwErr::Refused { offset, rule } => ReadErr::Refused(Refusal {
            section: Section::Bundle,
            offset,
            rule,
        }),
        DwErr::Memory => ReadErr::Memory,
    }
}

//! The operands of entries (DWARF 5, 2.6.2 and 2.17.3).
ghost use Rattle.std.specs.Prelude.{◌≢◌, IfErr};
ghost use Rattle.rv_bytes.specs.Results.{Reads};
ghost use Rattle.rv_bytes.specs.declared.err.DwErr.{DwErr};
ghost use Rattle.dwarf_list_entries.specs.Readers.{read_operands};

use crate::kind::Kind;
use rv_bytes::{Cut, DwErr};

/// An entry with its operands as they are in the list. Offsets and lengths are in bytes.
#[derive(Clone, Copy, Debug, PartialEq, Eq)]
pub enum RawEntry {
    EndOfList,
    /// The index of the new base.
    BaseAddressx(u64),
    /// The indexes of the first address and of the end.
    StartxEndx(u64, u64),
    /// The index of the first address, and the length.
    StartxLength(u64, u64),
    /// The offsets of the first address and of the end from the base.
    OffsetPair(u64, u64),
    /// The new base.
    BaseAddress(u64),
    /// The first address and the end.
    StartEnd(u64, u64),
    /// The first address, and the length.
    StartLength(u64, u64),
}

/// Reads the operands of an entry of this kind. What is invalid is refused at its own place.
pub(crate) fn read_operands(cut: &mut Cut<'_>, kind: Kind) -> Result<RawEntry, DwErr>
    ensures reads { Reads (read_operands kind cut.old.at cut.old.rest) result cut.new }
    ensures never_memory { IfErr result (λ e. e ≢ DwErr.Memory) }
{
    match kind {
        Kind::EndOfList => Ok(RawEntry::EndOfList),
        Kind::BaseAddressx => Ok(RawEntry::BaseAddressx(cut.uleb()?)),
        Kind::StartxEndx => {
            let start = cut.uleb()?;
            let end = cut.uleb()?;
            Ok(RawEntry::StartxEndx(start, end))
        }
        Kind::StartxLength => {
            let start = cut.uleb()?;
            let length = cut.uleb()?;
            Ok(RawEntry::StartxLength(start, length))
        }
        Kind::OffsetPair => {
            let start = cut.uleb()?;
            let end = cut.uleb()?;
            Ok(RawEntry::OffsetPair(start, end))
        }
        Kind::BaseAddress => Ok(RawEntry::BaseAddress(cut.u64()?)),
        Kind::StartEnd => {
            let start = cut.u64()?;
            let end = cut.u64()?;
            Ok(RawEntry::StartEnd(start, end))
        }
        Kind::StartLength => {
            let start = cut.u64()?;
            let length = cut.uleb()?;
            Ok(RawEntry::StartLength(start, length))
        }
    }
}

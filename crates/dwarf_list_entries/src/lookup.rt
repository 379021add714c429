//! The addresses that entries name by their indexes (DWARF 5, 7.27).
ghost use Rattle.std.specs.Prelude.{◌≡◌};
ghost use Rattle.dwarf_list_entries.specs.Entries.{looked_up};

use crate::entry::ListEntry;
use crate::operands::RawEntry;
use expr_eval::Addrs;

/// The entry with the addresses of its indexes; None where an index has no address. The sum of an
/// address and a length wraps at 2^64.
pub fn look_up(entry: RawEntry, addrs: &Addrs<'_>) -> Option<ListEntry>
    ensures { result ≡ looked_up addrs.now entry }
{
    match entry {
        RawEntry::EndOfList => Some(ListEntry::EndOfList),
        RawEntry::BaseAddressx(index) => Some(ListEntry::BaseAddress(addrs.address(index)?)),
        RawEntry::StartxEndx(start, end) => {
            let lo = addrs.address(start)?;
            let hi = addrs.address(end)?;
            Some(ListEntry::StartEnd(lo, hi))
        }
        RawEntry::StartxLength(start, length) => {
            let lo = addrs.address(start)?;
            Some(ListEntry::StartEnd(lo, lo.wrapping_add(length)))
        }
        RawEntry::OffsetPair(start, end) => Some(ListEntry::OffsetPair(start, end)),
        RawEntry::BaseAddress(address) => Some(ListEntry::BaseAddress(address)),
        RawEntry::StartEnd(lo, hi) => Some(ListEntry::StartEnd(lo, hi)),
        RawEntry::StartLength(lo, length) => {
            Some(ListEntry::StartEnd(lo, lo.wrapping_add(length)))
        }
    }
}

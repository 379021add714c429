//! What entries say (DWARF 5, 2.6.2 and 2.17.3).
ghost use Rattle.std.specs.Prelude.{◌≡◌};
ghost use Rattle.dwarf_list_entries.specs.Entries.{base_after, bounds_from};

/// An entry whose indexes were looked up.
#[derive(Clone, Copy, Debug, PartialEq, Eq)]
pub enum ListEntry {
    /// The list ends.
    EndOfList,
    /// The address from which the offsets count that follow.
    BaseAddress(u64),
    /// The offsets, in bytes from the base, of the first address and of the end.
    OffsetPair(u64, u64),
    /// The first address and the end.
    StartEnd(u64, u64),
}

/// Addresses, from `lo` on and below `hi`; none where `lo` isn't below `hi`.
#[derive(Clone, Copy, Debug, PartialEq, Eq)]
pub struct Bounds {
    pub lo: u64,
    pub hi: u64,
}

impl ListEntry {
    /// The base for the entries after this one, where `base` is the one for this.
    pub fn base_after(self, base: u64) -> u64
        ensures { result ≡ base_after base self }
    {
        match self {
            ListEntry::BaseAddress(address) => address,
            _ => base,
        }
    }

    /// The addresses that the entry is about, where offsets count from `base`; sums wrap at 2^64. None
    /// for a base address and for the end of the list.
    pub fn bounds_from(self, base: u64) -> Option<Bounds>
        ensures { result ≡ bounds_from base self }
    {
        match self {
            ListEntry::OffsetPair(start, end) => Some(Bounds {
                lo: base.wrapping_add(start),
                hi: base.wrapping_add(end),
            }),
            ListEntry::StartEnd(lo, hi) => Some(Bounds { lo, hi }),
            ListEntry::EndOfList | ListEntry::BaseAddress(_) => None,
        }
    }
}

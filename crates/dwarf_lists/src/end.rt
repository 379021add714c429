//! The end of a list.
ghost use Rattle.std.specs.Prelude.{◌≡◌};
ghost use Rattle.dwarf_lists.specs.Ranges.{is_end};

use dwarf_list_entries::ListEntry;

/// Whether the entry is the end of its list.
pub(crate) fn is_end(entry: &ListEntry) -> bool
    ensures { result ≡ is_end entry.now }
{
    matches!(entry, ListEntry::EndOfList)
}

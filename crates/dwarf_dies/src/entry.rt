//! What an entry is, where it is, and who owns it (DWARF 5, 2.3 and 7.5.3).
ghost use Rattle.std.specs.Prelude.{◌≡◌, MatchOption, option_and_then, option_map};
ghost use Rattle.dwarf_entries.specs.Dies.{die_at, what};
ghost use Rattle.dwarf_dies.specs.Parents.{IsParent, IsRoot};
ghost use Rattle.dwarf_dies.specs.Views.{die_of, number_of_die, offset_of_die, up_of_die};

use crate::dies::Dies;
use dwarf_entries::{Tag, tag_of};

impl<'a> Dies<'a> {
    /// What the entry with this number describes; None where it is passed over with all below it, and
    /// where there is no such entry. Takes no memory.
    pub fn what(&self, number: u32) -> Option<Tag>
        ensures { result ≡ option_and_then what (die_of self.now number) }
    {
        let entry = self.units.tree.entry(number)?;
        tag_of(entry.tag)
    }

    /// Where the entry with this number begins, in bytes from the start of `.debug_info`. Takes no
    /// memory.
    pub fn offset(&self, number: u32) -> Option<u64>
        ensures { result ≡ option_map offset_of_die (die_of self.now number) }
    {
        let entry = self.units.tree.entry(number)?;
        Some(entry.offset)
    }

    /// The number of the parent of the entry with this number; None for the first entry of a unit, and
    /// where there is no such entry. Takes no memory.
    pub fn parent(&self, number: u32) -> Option<u32>
        ensures up { result ≡ option_and_then up_of_die (die_of self.now number) }

        // That entry owns it, and the unit's bases are those of the one without a parent.
        ensures owner { MatchOption result (IsRoot self.now number) (IsParent self.now number) }
    {
        let entry = self.units.tree.entry(number)?;
        entry.up
    }

    /// The number of the entry that begins at this offset, in bytes from the start of `.debug_info`.
    /// Halves the entries until one is left. Takes no memory.
    pub fn at_offset(&self, offset: u64) -> Option<u32>
        ensures { result ≡ option_map number_of_die (die_at self.now offset) }
    {
        self.units.tree.at_offset(offset)
    }
}

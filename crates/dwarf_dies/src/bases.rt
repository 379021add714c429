//! The bases of units (DWARF 5, 3.1.1).
ghost use Rattle.std.specs.Prelude.{◌≡◌, option_and_then, option_map};
ghost use Rattle.dwarf_abbrev.specs.Values.{val_of};
ghost use Rattle.dwarf_entries.specs.Dies.{offset_in};
ghost use Rattle.dwarf_dies.specs.Attributes.{offset_at};
ghost use Rattle.dwarf_dies.specs.Parents.{HasBasesOf, IsRoot, bases_of_die};
ghost use Rattle.dwarf_dies.specs.Views.{die_of};

use crate::dies::Dies;
use dwarf_abbrev::Attr;
use dwarf_entries::{Bases, at};

/// An offset of another section; None for a value of another class.
fn offset_in(value: Attr<'_>) -> Option<u64>
    ensures { result ≡ offset_in (val_of value.entry) }
{
    match value {
        Attr::SecOffset(n) => Some(n),
        _ => None,
    }
}

impl<'a> Dies<'a> {
    /// The offset of another section that the first attribute with this code is.
    fn base(&self, number: u32, code: u64) -> Option<u64>
        ensures { result ≡ option_and_then (offset_at code) (die_of self.now number) }
    {
        let value = self.value(number, code)?;
        offset_in(value)
    }

    /// The first entry of an entry's unit: the last one on the way up.
    fn root(&self, number: u32) -> u32
        ensures bases { HasBasesOf self.now number result }
        ensures root { IsRoot self.now result }
    {
        let mut at = number;
        while let Some(up) = self.parent(at) {
            at = up;
        }
        at
    }

    /// The bases of the unit of the entry with this number; None where there is no such entry. Goes up
    /// from the entry to the first one of its unit, at most 256 steps, and reads its attributes. Takes no
    /// memory.
    pub fn bases(&self, number: u32) -> Option<Bases>
        ensures { result ≡ option_map bases_of_die (die_of self.now number) }
    {
        self.offset(number)?;
        let root = self.root(number);
        let text_offsets = self.base(root, at::STR_OFFSETS_BASE);
        let addrs = self.base(root, at::ADDR_BASE);
        Some(Bases {
            text_offsets,
            addrs,
        })
    }
}

//! Where references lead (DWARF 5, 7.5.5, the class reference).
ghost use Rattle.std.specs.Prelude.{◌≡◌, ◌<◌, option_and_then, option_copied, option_map, slice_get};
ghost use Rattle.dwarf_abbrev.specs.Values.{val_of};
ghost use Rattle.dwarf_entries.specs.Dies.{die_at, linked, target_of};
ghost use Rattle.dwarf_dies.specs.Views.{die_of, number_of_die, start_of_die};

use crate::dies::Dies;
use dwarf_abbrev::Attr;
use dwarf_units::{UnitHeader, Units};
use entry_tree::Node;

/// The header of an entry's unit.
fn header_of<'a>(units: &'a Units, entry: &Node) -> Option<&'a UnitHeader>
    ensures { option_copied result ≡ slice_get units.now.headers entry.now.unit }
{
    units.headers.as_slice().get(entry.unit as usize)
}

/// Where a reference leads, from a unit that begins at this offset.
fn target_of(start: u64, value: Attr<'_>) -> Option<u128>
    ensures { result ≡ target_of start (val_of value.entry) }
{
    match value {
        Attr::UnitRef(n) => Some(u128::from(start) + u128::from(n)),
        Attr::InfoRef(n) => Some(u128::from(n)),
        _ => None,
    }
}

impl<'a> Dies<'a> {
    /// Where the unit of the entry with this number begins, in bytes from the start of `.debug_info`;
    /// None where there is no such entry. Takes no memory.
    pub fn unit_start(&self, number: u32) -> Option<u64>
        ensures { result ≡ option_map start_of_die (die_of self.now number) }
    {
        let entry = self.units.tree.entry(number)?;
        let header = header_of(&self.units, entry)?;
        Some(header.offset)
    }

    /// The number of the entry that begins at a target.
    fn at_target(&self, target: u128) -> Option<u32>
        ensures { result ≡ option_map number_of_die (die_at self.now target) }
    {
        if target > self.sections.info.len() as u128 {
            return None;
        }
        self.at_offset(target as u64)
    }

    /// The number of the entry to which a reference leads, from a unit that begins at this offset; None
    /// where it is no reference, and where it leads to no entry. Takes no memory.
    pub fn target(&self, start: u64, value: Attr<'_>) -> Option<u32>
        ensures { result ≡ option_map number_of_die (option_and_then (die_at self.now) (target_of start (val_of value.entry))) }
    {
        let target = target_of(start, value)?;
        self.at_target(target)
    }

    /// The number of the entry to which the first attribute with this code leads; None where there is no
    /// such attribute, where it is no reference, and where it leads to no entry. Takes no memory.
    pub fn linked(&self, number: u32, code: u64) -> Option<u32>
        ensures { result ≡ option_map number_of_die (option_and_then (linked self.now code) (die_of self.now number)) }
    {
        let start = self.unit_start(number)?;
        let value = self.value(number, code)?;
        let target = target_of(start, value)?;
        self.at_target(target)
    }
}

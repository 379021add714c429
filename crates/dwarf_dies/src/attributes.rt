//! The attributes of entries (DWARF 5, 2.2 and 7.5.5).
ghost use Rattle.std.specs.Prelude.{◌≡◌, is_some, map, option_and_then, option_map};
ghost use Rattle.dwarf_abbrev.specs.Values.{val_of};
ghost use Rattle.dwarf_entries.specs.Lookups.{flag_of, is_set};
ghost use Rattle.dwarf_dies.specs.Attributes.{attribute_kept, attributes_of_die, first_of, number_in, value_in};
ghost use Rattle.dwarf_dies.specs.Units.{attribute_of};
ghost use Rattle.dwarf_dies.specs.Views.{die_of};

use crate::dies::Dies;
use dwarf_abbrev::Attr;
use dwarf_entries::natural;
use dwarf_units::{Attributes, EntryAttribute};

/// Whether a value is a set flag.
fn is_set(value: Attr<'_>) -> bool
    ensures { result ≡ is_set (val_of value.entry) }
{
    match value {
        Attr::Flag(set) => set,
        _ => false,
    }
}

impl<'a> Dies<'a> {
    /// The attributes of the entry with this number, in order; None where there is no such entry. Takes
    /// no memory.
    pub fn attributes(&self, number: u32) -> Option<Attributes<'_>>
        ensures { option_map (map attribute_of) result ≡ option_map attributes_of_die (die_of self.now number) }
    {
        self.units.attributes(self.sections.info, number)
    }

    /// The first attribute of the entry that has this code. Takes no memory.
    pub fn attribute(&self, number: u32, code: u64) -> Option<EntryAttribute<'_>>
        ensures { option_map attribute_kept result ≡ option_and_then (first_of code) (die_of self.now number) }
    {
        self.attributes(number)?.find(code)
    }

    /// Whether an attribute of the entry has this code. Takes no memory.
    pub fn has(&self, number: u32, code: u64) -> bool
        ensures { result ≡ is_some (option_and_then (first_of code) (die_of self.now number)) }
    {
        self.attribute(number, code).is_some()
    }

    /// The value of the first attribute of the entry that has this code. Takes no memory.
    pub fn value(&self, number: u32, code: u64) -> Option<Attr<'_>>
        ensures { option_map val_of result ≡ option_and_then (value_in code) (die_of self.now number) }
    {
        let attribute = self.attribute(number, code)?;
        Some(attribute.value)
    }

    /// The number that the first attribute of the entry with this code is, where it is a constant that
    /// isn't negative. Takes no memory.
    pub fn number_of(&self, number: u32, code: u64) -> Option<u128>
        ensures { result ≡ option_and_then (number_in code) (die_of self.now number) }
    {
        let value = self.value(number, code)?;
        natural(value)
    }

    /// Whether the first attribute of the entry with this code is a set flag. Takes no memory.
    pub fn flag_of(&self, number: u32, code: u64) -> bool
        ensures { result ≡ flag_of (option_and_then (value_in code) (die_of self.now number)) }
    {
        match self.value(number, code) {
            Some(value) => is_set(value),
            None => false,
        }
    }
}

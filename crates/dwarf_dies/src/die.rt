//! Entries, each with what is around it (DWARF 5, 2.1 to 2.3 and 7.5).
ghost use Rattle.std.specs.Prelude.{◌≡◌, MatchResult, Some, is_some, map, option_and_then, option_map};
ghost use Rattle.dwarf_abbrev.specs.Values.{val_of};
ghost use Rattle.dwarf_entries.specs.Dies.{children_of, die_at, linked, parent_of, target_of, what};
ghost use Rattle.dwarf_entries.specs.Lookups.{attribute_of, flag_of, has, number_of, value_of};
ghost use Rattle.dwarf_entries.specs.TextResults.{bytes_of, IsText, IsNoText};
ghost use Rattle.dwarf_entries.specs.Texts.{text_found};
ghost use Rattle.dwarf_dies.specs.Attributes.{attribute_kept};
ghost use Rattle.dwarf_dies.specs.Handles.{IsFound, among, beside};
ghost use Rattle.dwarf_dies.specs.Units.{attribute_of as attribute_read};
ghost use Rattle.dwarf_dies.specs.Views.{die_of};

use crate::dies::Dies;
use dwarf_abbrev::Attr;
use dwarf_entries::{Bases, Sections, Tag, TextErr};
use dwarf_units::{Attributes, EntryAttribute};
use std::marker::Model;

/// An entry of `.debug_info`: a number, and where all entries are. Contracts see the entry with those
/// that own it and its unit's bases, among all entries.
#[derive(Clone, Drop)]
pub struct Die<'a> {
    dies: &'a Dies<'a>,
    number: u32,
}

impl<'a> Model for Die<'a> {
    ghost use Rattle.dwarf_dies.specs.Handles.{DieIn, IsThere, die_in};

    ghost Value = { DieIn };

    ghost view = { λ d. die_in d.dies.now d.number };

    ghost invariant = { λ d. IsThere d.dies.now d.number };
}

impl<'a> Dies<'a> {
    /// All entries in order. Takes no memory.
    pub fn iter(&'a self) -> Iter<'a>
        ensures { result ≡ map (among self.now) self.now.dies }
    {
        Iter { dies: self, at: 0 }
    }

    /// The entry with this number, from 0; None where there are no more. Takes no memory.
    pub fn die(&'a self, number: u32) -> Option<Die<'a>>
        ensures { result ≡ option_map (among self.now) (die_of self.now number) }
    {
        if number as usize >= self.len() {
            return None;
        }
        Some(Die { dies: self, number })
    }
}

impl<'a> Die<'a> {
    /// The same entry once more. Takes no memory.
    pub fn again(&self) -> Die<'a>
        ensures { result ≡ self.now }
    {
        Die {
            dies: self.dies,
            number: self.number,
        }
    }

    /// Its number, which counts from 0 over all entries. Takes no memory.
    pub fn number(&self) -> u32
        ensures number { result ≡ self.now.die.entry.number }

        // It is the entry that has this number.
        ensures found { IsFound self.now }
    {
        self.number
    }

    /// Where it begins, in bytes from the start of `.debug_info`. Takes no memory.
    pub fn offset(&self) -> u64
        ensures { result ≡ self.now.die.entry.offset }
    {
        self.dies.offset(self.number).unwrap_or(0)
    }

    /// Where its unit begins, in bytes from the start of `.debug_info`. Takes no memory.
    pub fn unit_start(&self) -> u64
        ensures { result ≡ self.now.die.start }
    {
        self.dies.unit_start(self.number).unwrap_or(0)
    }

    /// What it describes; None where it is passed over with all below it. Takes no memory.
    pub fn what(&self) -> Option<Tag>
        ensures { result ≡ what self.now.die }
    {
        self.dies.what(self.number)
    }

    /// The entry that owns it; None for the first entry of a unit. Takes no memory.
    pub fn parent(&self) -> Option<Die<'a>>
        ensures { result ≡ option_map (beside self.now) (parent_of self.now.die) }
    {
        let number = self.dies.parent(self.number)?;
        Some(Die {
            dies: self.dies,
            number,
        })
    }

    /// The entries whose parent it is, in order. Takes no memory.
    pub fn children(&self) -> Children<'a>
        ensures { result ≡ map (beside self.now) (children_of self.now.info self.now.die) }
    {
        Children {
            dies: self.dies,
            numbers: self.dies.children(self.number),
        }
    }

    /// The bases of its unit. Goes up to the first entry of its unit, at most 256 steps. Takes no memory.
    pub fn bases(&self) -> Bases
        ensures { result ≡ self.now.die.bases }
    {
        self.dies.bases(self.number).unwrap_or(Bases {
            text_offsets: None,
            addrs: None,
        })
    }

    /// Its attributes, in order. Takes no memory.
    pub fn attributes(&self) -> Option<Attributes<'a>>
        ensures { option_map (map attribute_read) result ≡ Some self.now.die.entry.attributes }
    {
        self.dies.attributes(self.number)
    }

    /// Its first attribute with this code. Takes no memory.
    pub fn attribute(&self, code: u64) -> Option<EntryAttribute<'a>>
        ensures { option_map attribute_kept result ≡ attribute_of code self.now.die.entry }
    {
        self.dies.attribute(self.number, code)
    }

    /// Whether an attribute has this code. Takes no memory.
    pub fn has(&self, code: u64) -> bool
        ensures { result ≡ has code self.now.die.entry }
    {
        self.dies.has(self.number, code)
    }

    /// The value of its first attribute with this code. Takes no memory.
    pub fn value(&self, code: u64) -> Option<Attr<'a>>
        ensures { option_map val_of result ≡ value_of code self.now.die.entry }
    {
        self.dies.value(self.number, code)
    }

    /// The number that its first attribute with this code is, where it is a constant that isn't negative.
    /// Takes no memory.
    pub fn number_of(&self, code: u64) -> Option<u128>
        ensures { result ≡ number_of code self.now.die.entry }
    {
        self.dies.number_of(self.number, code)
    }

    /// Whether its first attribute with this code is a set flag. Takes no memory.
    pub fn flag_of(&self, code: u64) -> bool
        ensures { result ≡ flag_of (value_of code self.now.die.entry) }
    {
        self.dies.flag_of(self.number, code)
    }

    /// The entry to which its first attribute with this code leads; None where there is no such attribute,
    /// where it is no reference, and where it leads to no entry. Takes no memory.
    pub fn linked(&self, code: u64) -> Option<Die<'a>>
        ensures { result ≡ option_map (beside self.now) (linked self.now.info code self.now.die) }
    {
        let number = self.dies.linked(self.number, code)?;
        self.dies.die(number)
    }

    /// Whether an entry is where a reference leads, as the value of one of its attributes. Takes no memory.
    pub fn has_target(&self, value: Attr<'_>) -> bool
        ensures { result ≡ is_some (option_and_then (die_at self.now.info) (target_of self.now.die.start (val_of value.entry))) }
    {
        self.dies.target(self.unit_start(), value).is_some()
    }

    /// The sections that entries lead to. Takes no memory.
    pub fn sections(&self) -> Sections<'a>
        ensures { bytes_of result ≡ self.now.info.sections }
    {
        self.dies.sections()
    }

    /// The text of one of its attributes, of the class string. Takes no memory.
    pub fn text(&self, attribute: EntryAttribute<'a>) -> Result<&'a [u8], TextErr>
        // What is found is this text, or the error says why it is none.
        ensures { MatchResult result (λ t. IsText (text_found self.now.info.sections self.now.die.bases (attribute_kept attribute.entry)) t.now) (IsNoText (text_found self.now.info.sections self.now.die.bases (attribute_kept attribute.entry))) }
    {
        self.dies.text(self.bases(), attribute)
    }
}

/// Entries with one parent that are still to come. Contracts see their list.
#[derive(Drop)]
pub struct Children<'a> {
    dies: &'a Dies<'a>,
    numbers: entry_tree::Children<'a>,
}

impl<'a> Model for Children<'a> {
    ghost use Rattle.std.specs.Prelude.{List, map};
    ghost use Rattle.dwarf_dies.specs.Handles.{AreThere, DieIn, die_in};

    ghost Value = { List DieIn };

    ghost view = { λ c. map (die_in c.dies.now) c.numbers };

    ghost invariant = { λ c. AreThere c.dies.now c.numbers };
}

impl<'a> Iterator for Children<'a> {
    ghost use Rattle.std.specs.Iterator.{YieldsFirst, item_count};

    type Item = Die<'a>;

    ghost next_gives = { YieldsFirst (λ s. s) };

    ghost remaining = { item_count (λ s. s) };

    fn next(&mut self) -> Option<Die<'a>> {
        let number = self.numbers.next()?;
        Some(Die {
            dies: self.dies,
            number,
        })
    }
}

/// Entries that are still to come. Contracts see their list.
#[derive(Drop)]
pub struct Iter<'a> {
    dies: &'a Dies<'a>,
    at: u32,
}

impl<'a> Model for Iter<'a> {
    ghost use Rattle.std.specs.Prelude.{List, drop, map};
    ghost use Rattle.dwarf_dies.specs.Handles.{DieIn, among};

    ghost Value = { List DieIn };

    ghost view = { λ i. map (among i.dies.now) (drop i.at i.dies.now.dies) };
}

impl<'a> Iterator for Iter<'a> {
    ghost use Rattle.std.specs.Iterator.{YieldsFirst, item_count};

    type Item = Die<'a>;

    ghost next_gives = { YieldsFirst (λ s. s) };

    ghost remaining = { item_count (λ s. s) };

    fn next(&mut self) -> Option<Die<'a>> {
        let die = self.dies.die(self.at)?;
        self.at += 1;
        Some(die)
    }
}

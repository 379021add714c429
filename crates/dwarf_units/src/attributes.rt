//! The attributes of an entry, read again at its place (DWARF 5, 7.5.4).
ghost use Rattle.std.specs.Prelude.{◌≡◌, ◌==◌, List as Seq, ℕ, find, slice_get, drop, option_and_then, option_copied, option_map};
ghost use Rattle.dwarf_units.specs.Attributes.{attribute_seen, attributes_at, behind_code, bytes_to, declaration_of, readable_at};
ghost use Rattle.dwarf_units.specs.Units.{CompileUnit, AreUnits};
ghost use Rattle.dwarf_units.specs.Kept.{entries_in, Holds};

use crate::header::UnitHeader;
use crate::units::Units;
use dwarf_abbrev::{Abbrev, Attr, Spec, read_attr};
use entry_tree::Node;
use rv_bytes::Cut;
use std::marker::Model;

/// An attribute of an entry (DWARF 5, 7.5.4).
#[derive(Clone, Copy, Debug, PartialEq, Eq)]
pub struct EntryAttribute<'a> {
    /// The code of the attribute.
    pub attr: u64,
    /// The code of its form (DWARF 5, 7.5.6).
    pub form: u64,
    /// Where the value begins, in bytes from the start of `.debug_info`.
    pub offset: u64,
    pub value: Attr<'a>,
}

/// The attributes of an entry that are still to be read. Contracts see their list.
#[derive(Debug, Drop)]
pub struct Attributes<'a> {
    cut: Cut<'a>,
    specs: &'a [Spec],
}

impl<'a> Model for Attributes<'a> {
    ghost use Rattle.std.specs.Prelude.{List};
    ghost use Rattle.dwarf_units.specs.Entries.{Attribute};
    ghost use Rattle.dwarf_units.specs.Attributes.{readable};

    ghost Value = { List Attribute };

    ghost view = { λ a. readable a.specs.now a.cut.at a.cut.rest };
}

impl<'a> Attributes<'a> {
    /// The next attribute, in the order of the declaration; None after the last one. Takes no memory.
    pub fn read_next(&mut self) -> Option<EntryAttribute<'a>>
        ensures first { option_map attribute_seen result ≡ slice_get self.old 0 }
        ensures rest { self.new ≡ drop 1 self.old }
    {
        let (spec, more) = self.specs.split_first()?;
        let offset = self.cut.at() as u64;
        let Ok(value) = read_attr(&mut self.cut, spec) else {
            return None;
        };
        self.specs = more;
        Some(EntryAttribute {
            attr: spec.attr,
            form: spec.form,
            offset,
            value,
        })
    }

    /// The first attribute with this code, of those that are still to be read; None where there is
    /// none. Takes no memory.
    pub fn find(mut self, code: u64) -> Option<EntryAttribute<'a>>
        ensures { option_map attribute_seen result ≡ find (λ a. a.attr == code) self.entry }
    {
        while let Some(attribute) = self.read_next() {
            if attribute.attr == code {
                return Some(attribute);
            }
        }
        None
    }
}

/// The bytes up to the end of a unit.
fn bytes_to<'a>(info: &'a [u8], header: &UnitHeader) -> Option<&'a [u8]>
    ensures { option_copied result ≡ bytes_to info.now header.now }
{
    let size = info.len() as u64;
    let end = header.end()?;
    if end > size {
        return None;
    }
    Some(&info[..end as usize])
}

/// The place behind the code of an entry that begins at this offset.
fn behind_code<'a>(unit: &'a [u8], offset: u64) -> Option<Cut<'a>>
    ensures { result ≡ behind_code unit.now offset }
{
    if offset > unit.len() as u64 {
        return None;
    }
    let mut cut = Cut::from_place(unit, offset as usize);
    match cut.uleb() {
        Ok(_) => Some(cut),
        Err(_) => None,
    }
}

impl Units {
    /// The declaration of an entry.
    fn declaration(&self, entry: &Node) -> Option<&Abbrev>
        ensures { option_copied result ≡ declaration_of self.now entry.now }
    {
        let header = self.headers.as_slice().get(entry.unit as usize)?;
        self.tables.find(header.abbrev_offset)?.find(entry.code)
    }

    /// The bytes up to the end of an entry's unit.
    fn unit_bytes<'a>(&self, info: &'a [u8], entry: &Node) -> Option<&'a [u8]>
        ensures { option_copied result ≡ option_and_then (bytes_to info.now) (slice_get self.now.headers entry.now.unit) }
    {
        let header = self.headers.as_slice().get(entry.unit as usize)?;
        bytes_to(info, header)
    }

    /// The attributes of an entry, read again at its place.
    fn read_again<'a>(&'a self, info: &'a [u8], entry: &Node) -> Option<Attributes<'a>>
        ensures { result ≡ readable_at self.now info.now entry.now }
    {
        let declaration = self.declaration(entry)?;
        let unit = self.unit_bytes(info, entry)?;
        let cut = behind_code(unit, entry.offset)?;
        Some(Attributes {
            cut,
            specs: declaration.specs.as_slice(),
        })
    }

    /// The attributes of the entry with this number, read again at its place in `info`, which is the
    /// whole of `.debug_info`; None where there is no such entry. Takes no memory, and time that grows
    /// with the logarithm of the counts of tables and of their declarations.
    pub fn attributes<'a>(&'a self, info: &'a [u8], number: u32) -> Option<Attributes<'a>>
        ensures { (abbrevs : Seq ℕ) (us : Seq CompileUnit) → AreUnits abbrevs info.now us → Holds us self.now
            → result ≡ attributes_at (entries_in us) number }
    {
        let entry = self.tree.entry(number)?;
        self.read_again(info, entry)
    }
}

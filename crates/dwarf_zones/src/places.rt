//! Where attributes lead that name a list (DWARF 5, 2.6.2, 2.17.3, 7.28 and 7.29).
ghost use Rattle.std.specs.Prelude.{◌≡◌};
ghost use Rattle.dwarf_abbrev.specs.Values.{val_of};
ghost use Rattle.dwarf_entries.specs.Texts.{indexed, number_at};
ghost use Rattle.dwarf_zones.specs.Lists.{indexed_place, inside, locations_place, ranges_place};

use crate::units::base_by;
use byteorder::{ByteOrder, LittleEndian};
use dwarf_abbrev::Attr;
use dwarf_dies::Die;
use dwarf_entries::at;

/// How many bytes an offset has, in 32-bit DWARF.
const OFFSET_SIZE: u64 = 4;

/// The place, where it is one of the section.
fn inside(section: &[u8], at: u64) -> Option<u64>
    ensures { result ≡ inside section.now at }
{
    if at < section.len() as u64 {
        Some(at)
    } else {
        None
    }
}

/// The offset at a place, where it is there whole.
fn offset_at(section: &[u8], at: u64) -> Option<u32>
    ensures { result ≡ number_at 4 section.now at }
{
    let end = at.checked_add(OFFSET_SIZE)?;
    if end > section.len() as u64 {
        return None;
    }
    Some(LittleEndian::read_u32(&section[at as usize..]))
}

/// The place of the list at an index: the offset there counts from the base.
fn indexed_place(section: &[u8], base: Option<u64>, index: u64) -> Option<u64>
    ensures { result ≡ indexed_place section.now base index }
{
    let base = base?;
    let at = index.checked_mul(OFFSET_SIZE)?.checked_add(base)?;
    let offset = offset_at(section, at)?;
    inside(section, base.checked_add(u64::from(offset))?)
}

/// The place in `.debug_rnglists` of the range list that a value of an entry names; None where it leads
/// outside the section, and where it is an index and the unit has no base (DWARF 5, 7.28). Takes no memory.
pub fn ranges_place(die: &Die<'_>, value: Attr<'_>) -> Option<u64>
    ensures { result ≡ ranges_place die.now.info die.now.die (val_of value.entry) }
{
    let section = die.sections().ranges;
    match value {
        Attr::SecOffset(offset) => inside(section, offset),
        Attr::RangeIndex(index) => indexed_place(section, base_by(die, at::RNGLISTS_BASE), index),
        _ => None,
    }
}

/// The place in `.debug_loclists` of the location list that a value of an entry names; None where it leads
/// outside the section, and where it is an index and the unit has no base (DWARF 5, 7.29). Takes no memory.
pub fn locations_place(die: &Die<'_>, value: Attr<'_>) -> Option<u64>
    ensures { result ≡ locations_place die.now.info die.now.die (val_of value.entry) }
{
    let section = die.sections().locs;
    match value {
        Attr::SecOffset(offset) => inside(section, offset),
        Attr::LocIndex(index) => indexed_place(section, base_by(die, at::LOCLISTS_BASE), index),
        _ => None,
    }
}

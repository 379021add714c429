//! The rule that a static's location breaks by where it leads (DWARF 5, 2.6.1.1.2).
ghost use Rattle.std.specs.Prelude.{◌≡◌, is_none, drop};
ghost use Rattle.rv_bytes.specs.NumberReaders.{read_uleb};
ghost use Rattle.rv_bytes.specs.Reads.{place_of};
ghost use Rattle.dwarf_dies.specs.Attributes.{attribute_kept};
ghost use Rattle.dwarf_entries.specs.AddressOps.{address_at};
ghost use Rattle.dwarf_entries.specs.AttributeItems.{expression_place, location_items};
ghost use Rattle.dwarf_entries.specs.Items.{first_fault};
ghost use Rattle.dwarf_items.specs.Answers.{Answers};

use crate::items::answer;
use dwarf_abbrev::Attr;
use dwarf_dies::Die;
use dwarf_entries::{Address, address_of, address_op};
use dwarf_units::EntryAttribute;
use layout_set::ReadErr;
use rv_bytes::{Cut, CutErr, rule};

/// Whether an address leads outside `.debug_addr`.
fn is_outside(die: &Die<'_>, address: Address) -> bool
    ensures { result ≡ is_none (address_at die.now.info.sections die.now.die.bases address) }
{
    let value = match address {
        Address::Fixed(n) => Attr::Addr(n),
        Address::Index(index) => Attr::AddrIndex(index),
    };
    address_of(&die.sections(), die.bases(), value).is_none()
}

/// Where the item begins that an error is about.
fn place_of(error: CutErr) -> usize
    ensures { result ≡ place_of error }
{
    match error {
        CutErr::Short { at } => at,
        CutErr::Wide { at } => at,
        CutErr::NoZero { at } => at,
        CutErr::Kind { at } => at,
        CutErr::NoText { at } => at,
    }
}

/// Where the bytes of an expression begin: after their length.
fn expression_place<'a>(die: &Die<'a>, attribute: EntryAttribute<'a>) -> u64
    ensures { result ≡ expression_place die.now.info (attribute_kept attribute.entry) }
{
    let info = die.sections().info;
    if attribute.offset > info.len() as u64 {
        return attribute.offset;
    }
    let mut cut = Cut::from_place(info, attribute.offset as usize);
    match cut.uleb() {
        Ok(_) => cut.at() as u64,
        Err(error) => place_of(error) as u64,
    }
}

/// Checks where the one address of a static's location leads, at its operation. Answers that memory has
/// run out where the place has more than 64 bits, which is in no section that memory can hold.
pub(crate) fn location_items<'a>(
    die: &Die<'a>,
    attribute: EntryAttribute<'a>,
) -> Result<(), ReadErr>
    ensures { Answers (first_fault (location_items die.now.info die.now.die (attribute_kept attribute.entry))) result }
{
    let Attr::Expr(bytes) = attribute.value else {
        return Ok(());
    };
    let Some(op) = address_op(bytes) else {
        return Ok(());
    };
    if !is_outside(die, op.address) {
        return Ok(());
    }
    match expression_place(die, attribute).checked_add(op.place as u64) {
        Some(place) => answer(place, Some(rule::OUTSIDE)),
        None => Err(ReadErr::Memory),
    }
}

//! What the first entry of a unit says for all others (DWARF 5, 3.1.1).
ghost use Rattle.std.specs.Prelude.{◌≡◌, option_and_then, unwrap_or};
ghost use Rattle.dwarf_abbrev.specs.Values.{val_of};
ghost use Rattle.dwarf_entries.specs.Dies.{offset_in};
ghost use Rattle.dwarf_dies.specs.Handles.{beside};
ghost use Rattle.dwarf_zones.specs.Units.{address_by, addresses_of, base_address, base_by, root_of};

use dwarf_abbrev::Attr;
use dwarf_dies::Die;
use dwarf_entries::{address_of, at};
use dwarf_lists::Addrs;

/// The first entry of the unit of an entry. Goes up at most 256 steps.
fn root_of<'a>(die: &Die<'a>) -> Die<'a>
    ensures { result ≡ beside die.now (root_of die.now.die) }
{
    let mut root = die.again();
    let mut above = die.parent();
    while let Some(up) = above {
        above = up.parent();
        root = up;
    }
    root
}

/// An offset of another section; None for a value of another class.
fn offset_in(value: Attr<'_>) -> Option<u64>
    ensures { result ≡ offset_in (val_of value.entry) }
{
    match value {
        Attr::SecOffset(n) => Some(n),
        _ => None,
    }
}

/// Where in another section the unit's part starts, by the attribute with this code.
pub(crate) fn base_by(die: &Die<'_>, code: u64) -> Option<u64>
    ensures { result ≡ base_by code die.now.die }
{
    let value = root_of(die).value(code)?;
    offset_in(value)
}

/// The address of the first attribute with this code.
pub(crate) fn address_by(die: &Die<'_>, code: u64) -> Option<u64>
    ensures { result ≡ address_by code die.now.info die.now.die }
{
    let value = die.value(code)?;
    address_of(&die.sections(), die.bases(), value)
}

/// The base address of an entry's unit, which is its low_pc: what the offsets in lists count from, up to an
/// entry that gives another base. 0 where it is missing. Takes no memory.
pub fn base_address(die: &Die<'_>) -> u64
    ensures { result ≡ base_address die.now.info die.now.die }
{
    address_by(&root_of(die), at::LOW_PC).unwrap_or(0)
}

/// The addresses that the indexes of an entry's unit name. Takes no memory.
pub fn addresses_of<'a>(die: &Die<'a>) -> Addrs<'a>
    ensures { result ≡ addresses_of die.now.info die.now.die }
{
    Addrs {
        section: die.sections().addrs,
        base: die.bases().addrs,
    }
}

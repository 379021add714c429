//! Location lists (DWARF 5, 2.6.2 and 7.7.3).
ghost use Rattle.std.specs.Prelude.{◌≡◌, ◌++◌, map, IfOk, IfErr, OnOk, OnErr};
ghost use Rattle.rv_bytes.specs.Rules.{outside};
ghost use Rattle.rv_bytes.specs.Results.{ReadsBy};
ghost use Rattle.rv_bytes.specs.Sections.{BeginsAt, IsFaultAt};
ghost use Rattle.dwarf_list_entries.specs.Locations.{entry_seen};
ghost use Rattle.dwarf_lists.specs.Locations.{location_seen, locations_of, location_list};
ghost use Rattle.dwarf_lists.specs.Readers.{read_location_list};

use crate::end::is_end;
use crate::refusal::outside;
use dwarf_list_entries::{Addrs, Bounds, Expression, LocationEntry, read_location_entry};
use rv_bytes::{Cut, DwErr};
use rv_io::{List, Memory};
use std::alloc::Global;

/// The expression that says where a variable is while the program counter is within the bounds.
#[derive(Clone, Copy, Debug, PartialEq, Eq)]
pub struct BoundedLocation<'a> {
    pub bounds: Bounds,
    pub expression: Expression<'a>,
}

/// Adds what an entry says, if it has an expression and there are addresses between its bounds.
fn push_location<'a>(
    locations: &mut List<BoundedLocation<'a>>,
    entry: LocationEntry<'a>,
    base: u64,
) -> Result<(), Memory>
    ensures { OnOk result (map location_seen locations.new ≡ map location_seen locations.old ++ locations_of base (entry_seen entry.entry)) }
{
    if let Some(bounds) = entry.entry.bounds_from(base)
        && let Some(expression) = entry.expression
        && bounds.lo < bounds.hi
    {
        locations.push(BoundedLocation { bounds, expression })?;
    }
    Ok(())
}

/// Reads the list at the cut's place.
fn read_locations<'a>(
    alloc: Global,
    cut: &mut Cut<'a>,
    base: u64,
    addrs: &Addrs<'_>,
) -> Result<List<BoundedLocation<'a>>, DwErr>
    ensures { ReadsBy (map location_seen) (read_location_list addrs.now base cut.old.at cut.old.rest) result cut.new }
{
    let mut locations = List::new(alloc);
    let mut base = base;
    loop {
        let entry = read_location_entry(cut, addrs)?;
        if is_end(&entry.entry) {
            return Ok(locations);
        }
        push_location(&mut locations, entry, base)?;
        base = entry.entry.base_after(base);
    }
}

/// Reads the location list that begins `at` bytes from the start of `section`, which is the whole of
/// `.debug_loclists` (DWARF 5, 2.6.2 and 7.7.3), up to its end of list. Offsets count from `base`, which is
/// the unit's low_pc, up to an entry that gives another base; sums wrap at 2^64. Entries whose bounds hold
/// no address are left out. The operations of the expressions aren't looked at.
///
/// The `offset` of a refusal is in bytes from the section's start, at the kind of the first invalid entry;
/// at `at` itself where that is at the section's end or after it. Its rules: 10 where the section ends where
/// an entry is due or inside it, its expression included, 11 where a LEB128 number is too wide, 31 where an
/// index has no address in `addrs`, or `at` is outside, 38 where a kind is none of those that are read, as
/// `default_location` is. Takes memory for the entries; expressions aren't copied.
pub fn read_location_list<'a>(
    alloc: Global,
    section: &'a [u8],
    at: u64,
    base: u64,
    addrs: &Addrs<'_>,
) -> Result<List<BoundedLocation<'a>>, DwErr>
    // From the place on the section begins with a list that says these locations.
    ensures locations { IfOk result (λ l. BeginsAt (location_list addrs.now base) section.now at (map location_seen l)) }

    // What is refused has no list there.
    ensures refused { IfErr result (IsFaultAt outside (location_list addrs.now base) section.now at) }
{
    if at >= section.len() as u64 {
        return Err(outside(at));
    }
    let mut cut = Cut::from_place(section, at as usize);
    read_locations(alloc, &mut cut, base, addrs)
}

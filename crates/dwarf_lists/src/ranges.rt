//! Range lists (DWARF 5, 2.17.3 and 7.25).
ghost use Rattle.std.specs.Prelude.{◌≡◌, ◌++◌, IfOk, IfErr, OnOk, OnErr};
ghost use Rattle.rv_bytes.specs.Rules.{outside};
ghost use Rattle.rv_bytes.specs.Results.{Reads};
ghost use Rattle.rv_bytes.specs.Sections.{BeginsAt, IsFaultAt};
ghost use Rattle.dwarf_lists.specs.Ranges.{zones_of, range_list};
ghost use Rattle.dwarf_lists.specs.Readers.{read_range_list};

use crate::end::is_end;
use crate::refusal::outside;
use dwarf_list_entries::{Addrs, Bounds, read_range_entry};
use layout_set::Zone;
use rv_bytes::{Cut, DwErr};
use rv_io::{List, Memory};
use std::alloc::Global;

/// Adds the addresses between the bounds, if there are bounds and addresses between them.
fn push_zone(zones: &mut List<Zone>, bounds: Option<Bounds>) -> Result<(), Memory>
    ensures { OnOk result (zones.new ≡ zones.old ++ zones_of bounds) }
{
    if let Some(Bounds { lo, hi }) = bounds
        && lo < hi
    {
        zones.push(Zone { lo, hi })?;
    }
    Ok(())
}

/// Reads the list at the cut's place.
fn read_zones(
    alloc: Global,
    cut: &mut Cut<'_>,
    base: u64,
    addrs: &Addrs<'_>,
) -> Result<List<Zone>, DwErr>
    ensures { Reads (read_range_list addrs.now base cut.old.at cut.old.rest) result cut.new }
{
    let mut zones = List::new(alloc);
    let mut base = base;
    loop {
        let entry = read_range_entry(cut, addrs)?;
        if is_end(&entry) {
            return Ok(zones);
        }
        push_zone(&mut zones, entry.bounds_from(base))?;
        base = entry.base_after(base);
    }
}

/// Reads the range list that begins `at` bytes from the start of `section`, which is the whole of
/// `.debug_rnglists` (DWARF 5, 2.17.3 and 7.25), up to its end of list. Offsets count from `base`, which is
/// the unit's low_pc, up to an entry that gives another base; sums wrap at 2^64. Ranges without an address
/// are left out.
///
/// The `offset` of a refusal is in bytes from the section's start, at the kind of the first invalid entry;
/// at `at` itself where that is at the section's end or after it. Its rules: 10 where the section ends where
/// an entry is due or inside it, 11 where a LEB128 number is too wide, 31 where an index has no address in
/// `addrs`, or `at` is outside, 38 where a kind is none of those that are read. Takes memory for the ranges.
pub fn read_ranges(
    alloc: Global,
    section: &[u8],
    at: u64,
    base: u64,
    addrs: &Addrs<'_>,
) -> Result<List<Zone>, DwErr>
    // From the place on the section begins with a list that says these ranges.
    ensures ranges { IfOk result (BeginsAt (range_list addrs.now base) section.now at) }

    // What is refused has no list there.
    ensures refused { IfErr result (IsFaultAt outside (range_list addrs.now base) section.now at) }
{
    if at >= section.len() as u64 {
        return Err(outside(at));
    }
    let mut cut = Cut::from_place(section, at as usize);
    read_zones(alloc, &mut cut, base, addrs)
}

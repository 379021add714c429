//! Location lists (DWARF 5, 2.6.2 and 7.7.3).
ghost use Rattle.std.specs.Prelude.{◌≡◌, ◌++◌, IfOk, IfErr, OnOk};
ghost use Rattle.rv_bytes.specs.Reads.{Takes, IsRefusedBy};
ghost use Rattle.rv_bytes.specs.Rules.{outside};
ghost use Rattle.rv_bytes.specs.Sections.{BeginsAt, IsFaultAt};
ghost use Rattle.rv_bytes.specs.declared.err.DwErr.{DwErr};
ghost use Rattle.dwarf_lists.specs.Ranges.{is_end};
ghost use Rattle.dwarf_locations.specs.Lists.{within_bounds, location_list};

use crate::said::read_said;
use dwarf_list_entries::{Bounds, ListEntry};
use expr_bytes::{Addrs, Frame};
use layout_set::{Entry, Loc};
use rv_bytes::{Cut, DwErr, rule};
use rv_io::{List, Memory};
use std::alloc::Global;

/// The refusal of a list that begins outside its section.
fn outside(at: u64) -> DwErr
    ensures { result ≡ DwErr.Refused at outside }
{
    DwErr::Refused {
        offset: at,
        rule: rule::OUTSIDE,
    }
}

/// Whether the entry is the end of its list.
fn is_end(entry: &ListEntry) -> bool
    ensures { result ≡ is_end entry.now }
{
    matches!(entry, ListEntry::EndOfList)
}

/// Adds a location, if there is one, and there are addresses between its bounds.
fn push_entry(
    entries: &mut List<Entry>,
    bounds: Option<Bounds>,
    loc: Option<Loc>,
) -> Result<(), Memory>
    ensures { OnOk result (entries.new ≡ entries.old ++ within_bounds bounds loc) }
{
    if let Some(Bounds { lo, hi }) = bounds
        && let Some(loc) = loc
        && lo < hi
    {
        entries.push(Entry { lo, hi, loc })?;
    }
    Ok(())
}

/// Reads the list at the cut's place.
fn read_entries(
    alloc: Global,
    cut: &mut Cut<'_>,
    base: u64,
    frame: Frame,
    addrs: &Addrs<'_>,
) -> Result<List<Entry>, DwErr>
    ensures taken { IfOk result (Takes (location_list frame addrs.now base) cut.old cut.new) }
    ensures refused { IfErr result (IsRefusedBy (location_list frame addrs.now base) cut.old) }
{
    let mut entries = List::new(alloc);
    let mut base = base;
    loop {
        let said = read_said(alloc, cut, frame, addrs)?;
        if is_end(&said.entry) {
            return Ok(entries);
        }
        push_entry(&mut entries, said.entry.bounds_from(base), said.loc)?;
        base = said.entry.base_after(base);
    }
}

/// Reads the location list that begins `at` bytes from the start of `section`, which is the whole of
/// `.debug_loclists` (DWARF 5, 2.6.2 and 7.7.3), up to its end of list, with the locations that its
/// expressions say. Offsets count from `base`, which is the unit's low_pc, up to an entry that gives another
/// base; sums wrap at 2^64. Entries whose bounds hold no address are left out, and so are those whose
/// expressions say no location. `frame` is the frame base of the function, and `addrs` has the addresses that
/// are named by an index.
///
/// The `offset` of a refusal is in bytes from the section's start; at `at` itself where that is at the
/// section's end or after it. The first invalid item counts: an entry stands before the operations of its
/// expression, and these before the next entry, also where the bounds hold no address. An entry breaks rule
/// 10 where the section ends where it is due or inside it, 11 where a LEB128 number is too wide, 31 where an
/// index has no address, 38 where its kind is none of those that are read, as `default_location` is. Rule 31
/// is also broken where `at` is outside. An operation breaks those of [`read_loc`](crate::read_loc). Takes
/// memory for the entries and what they say.
pub fn read_locations(
    alloc: Global,
    section: &[u8],
    at: u64,
    base: u64,
    frame: Frame,
    addrs: &Addrs<'_>,
) -> Result<List<Entry>, DwErr>
    // From the place on the section begins with a list that says these entries.
    ensures entries { IfOk result (BeginsAt (location_list frame addrs.now base) section.now at) }

    // What is refused has no list there.
    ensures refused { IfErr result (IsFaultAt outside (location_list frame addrs.now base) section.now at) }
{
    if at >= section.len() as u64 {
        return Err(outside(at));
    }
    let mut cut = Cut::from_place(section, at as usize);
    read_entries(alloc, &mut cut, base, frame, addrs)
}

//! The addresses of a scope (DWARF 5, 2.17).
ghost use Rattle.std.specs.Prelude.{◌≡◌, ◌<◌, ◌+◌, ◌%◌, ◌^◌, length, IfOk, Some};
ghost use Rattle.dwarf_abbrev.specs.Values.{val_of};
ghost use Rattle.dwarf_entries.specs.Discriminants.{case_number};
ghost use Rattle.dwarf_zones.specs.Lists.{ranges_place};
ghost use Rattle.dwarf_zones.specs.Zones.{AnswersZones, between, end_of, fault_listed, in_section, listed, own_zone, zones_between, zones_fault, zones_of};

use crate::places::ranges_place;
use crate::units::{address_by, addresses_of, base_address};
use dwarf_abbrev::Attr;
use dwarf_dies::Die;
use dwarf_entries::{address_of, at, case_number};
use dwarf_lists::read_ranges;
use layout_set::{Primitive, ReadErr, Refusal, Section, Zone};
use rv_bytes::DwErr;
use rv_io::{List, Memory};
use std::alloc::Global;

/// The end of a scope so many bytes after its beginning; the sum wraps at 2^64.
fn end_after(low: u64, count: Attr<'_>) -> u64
    ensures { result ≡ (low + case_number 8 (val_of count.entry)) % 2 ^ 64 }
{
    low.wrapping_add(case_number(Primitive::U64, count))
}

/// The end of a scope that begins at this address: a constant is added to that.
fn end_of(die: &Die<'_>, low: u64, value: Attr<'_>) -> Option<u64>
    ensures { result ≡ end_of die.now.info die.now.die low (val_of value.entry) }
{
    match value {
        Attr::Unsigned(_) => Some(end_after(low, value)),
        Attr::Signed(_) => Some(end_after(low, value)),
        Attr::Wide(_) => Some(end_after(low, value)),
        _ => address_of(&die.sections(), die.bases(), value),
    }
}

/// The zone between two addresses, if there is an address in it.
fn between(alloc: Global, lo: u64, hi: u64) -> Result<List<Zone>, Memory>
    ensures { IfOk result (λ zones. zones ≡ between lo hi) }
{
    let mut zones = List::new(alloc);
    if lo < hi {
        zones.push(Zone { lo, hi })?;
    }
    Ok(zones)
}

/// The two ends of a scope, where it has both.
fn ends_of(die: &Die<'_>) -> Option<Zone>
    ensures { own_zone die.now.info die.now.die ≡ zones_between result }
{
    let lo = address_by(die, at::LOW_PC)?;
    let value = die.value(at::HIGH_PC)?;
    let hi = end_of(die, lo, value)?;
    Some(Zone { lo, hi })
}

/// The one zone of a scope by its two ends.
fn own_zone(alloc: Global, die: &Die<'_>) -> Result<List<Zone>, Memory>
    ensures { IfOk result (λ zones. zones ≡ own_zone die.now.info die.now.die) }
{
    match ends_of(die) {
        Some(Zone { lo, hi }) => between(alloc, lo, hi),
        None => Ok(List::new(alloc)),
    }
}

/// The refusal of a range list, with its section.
fn in_section(error: DwErr) -> ReadErr
    ensures { result ≡ in_section error }
{
    match error {
        DwErr::Refused { offset, rule } => ReadErr::Refused(Refusal {
            section: Section::RngLists,
            offset,
            rule,
        }),
        DwErr::Memory => ReadErr::Memory,
    }
}

/// The zones of the range list at this place of its section.
fn listed(alloc: Global, die: &Die<'_>, place: u64) -> Result<List<Zone>, ReadErr>
    requires { place < length die.now.info.sections.ranges }
    ensures { AnswersZones (listed die.now.info die.now.die (Some place)) (fault_listed die.now.info die.now.die (Some place)) result }
{
    let addrs = addresses_of(die);
    match read_ranges(
        alloc,
        die.sections().ranges,
        place,
        base_address(die),
        &addrs,
    ) {
        Ok(zones) => Ok(zones),
        Err(error) => Err(in_section(error)),
    }
}

/// The zones of the range list that a value names; none where it leads outside the section.
fn named(alloc: Global, die: &Die<'_>, value: Attr<'_>) -> Result<List<Zone>, ReadErr>
    ensures { AnswersZones (listed die.now.info die.now.die (ranges_place die.now.info die.now.die (val_of value.entry))) (fault_listed die.now.info die.now.die (ranges_place die.now.info die.now.die (val_of value.entry))) result }
{
    match ranges_place(die, value) {
        Some(place) => listed(alloc, die, place),
        None => Ok(List::new(alloc)),
    }
}

/// The zones of a scope: those of its range list, where it names one, and else the one between its low_pc
/// and its high_pc; a zone without an address is none. A list that begins outside its section, or has no
/// base, gives no zones here, since the attribute itself is at fault. Refused is the first invalid entry of the
/// list, in `.debug_rnglists`.
pub fn zones_of(alloc: Global, die: &Die<'_>) -> Result<List<Zone>, ReadErr>
    ensures { AnswersZones (zones_of die.now.info die.now.die) (zones_fault die.now.info die.now.die) result }
{
    match die.value(at::RANGES) {
        Some(value) => named(alloc, die, value),
        None => Ok(own_zone(alloc, die)?),
    }
}

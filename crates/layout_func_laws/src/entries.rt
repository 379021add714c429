//! Entries of a variable: inside its scope, in order, and different where they abut.
ghost use Rattle.std.specs.Bool.{Decides};
ghost use Rattle.std.specs.List.{All};
ghost use Rattle.layout_set.specs.Law13.{LiesIn, IsEntry, MayFollow, Rise};

use crate::pieces::is_location;
use crate::same_location::same_loc;
use layout_set::{Entry, Zone};

/// Whether the entry lies inside each zone.
fn lies_in(entry: &Entry, zones: &[Zone]) -> bool
    ensures { Decides result (All (LiesIn entry.now) zones.now) }
{
    for zone in zones {
        if entry.lo < zone.lo || zone.hi < entry.hi {
            return false;
        }
    }
    true
}

/// Whether this is an entry of a variable of so many bytes.
fn is_entry(bytes: u32, zones: &[Zone], entry: &Entry) -> bool
    ensures { Decides result (IsEntry bytes zones.now entry.now) }
{
    entry.lo < entry.hi && lies_in(entry, zones) && is_location(bytes, &entry.loc)
}

/// Whether each is an entry of a variable of so many bytes. Takes no memory.
pub(crate) fn are_entries(bytes: u32, zones: &[Zone], entries: &[Entry]) -> bool
    ensures { Decides result (All (IsEntry bytes zones.now) entries.now) }
{
    for entry in entries {
        if !is_entry(bytes, zones, entry) {
            return false;
        }
    }
    true
}

/// Whether the second begins past the first, or where it ends, and then is at another location.
fn may_follow(a: &Entry, b: &Entry) -> bool
    ensures { Decides result (MayFollow a.now b.now) }
{
    a.hi < b.lo || (a.hi == b.lo && !same_loc(&a.loc, &b.loc))
}

/// Whether each entry may follow the one before it. Takes no memory.
#[tactic(auto, using(crate::proofs::Follows::neighbours_rise, crate::proofs::Follows::rise_neighbours))]
pub(crate) fn rise(entries: &[Entry]) -> bool
    ensures { Decides result (Rise entries.now) }
{
    for i in 1..entries.len() {
        if !may_follow(&entries[i - 1], &entries[i]) {
            return false;
        }
    }
    true
}

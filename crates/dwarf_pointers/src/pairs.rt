//! The two members of a fat pointer.
ghost use Rattle.std.specs.Prelude.{◌≡◌, ◌<◌, ◌==◌, ℕ};
ghost use Rattle.dwarf_entries.specs.FatPairs.{pair_of};
ghost use Rattle.dwarf_entries.specs.Pointers.{placed};
ghost use Rattle.dwarf_entries.specs.Structures.{location_of};
ghost use Rattle.dwarf_entries.specs.Texts.{own_text};

use dwarf_dies::Die;
use dwarf_entries::{FatPair, Member, fat_pair};
use dwarf_names::own_text;
use dwarf_scopes::location_of;

/// Where a member lies, and the last place of 64 bits for all that are past it.
fn place_of(die: &Die<'_>) -> u64
    // Places that fit 64 bits are told apart, but for the last.
    ensures { (k : ℕ) → k < 18446744073709551615 → (result == k) ≡ (location_of die.now.die == k) }
{
    match u64::try_from(location_of(die)) {
        Ok(place) => place,
        Err(_) => u64::MAX,
    }
}

/// What stands in the fat pointer that has these two members, in this order. Takes no memory.
pub(crate) fn pair_of(first: &Die<'_>, second: &Die<'_>) -> Option<FatPair>
    ensures { result ≡ pair_of (placed first.now.info first.now.die) (placed second.now.info second.now.die) }
{
    let first = Member {
        name: own_text(first),
        offset: place_of(first),
    };
    let second = Member {
        name: own_text(second),
        offset: place_of(second),
    };
    fat_pair(first, second)
}

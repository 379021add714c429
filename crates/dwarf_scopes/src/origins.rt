//! The entries from which one takes a name or a type that it lacks (DWARF 5, 3.3.8.2, DW_AT_abstract_origin).
ghost use Rattle.std.specs.Prelude.{◌≡◌, option_map};
ghost use Rattle.dwarf_entries.specs.Origins.{bearer_of, goes_on, is_too_far, is_unnamed};
ghost use Rattle.dwarf_dies.specs.Handles.{beside};

use dwarf_dies::Die;
use dwarf_entries::at;

/// After how many abstract_origins no further one is followed.
const MOST_STEPS: u32 = 8;

/// The first entry that has an attribute with this code: the given one, or one to which its
/// abstract_origins lead in at most 8 steps. Takes no memory.
pub fn bearer_of<'a>(die: &Die<'a>, code: u64) -> Option<Die<'a>>
    ensures { result ≡ option_map (beside die.now) (bearer_of code die.now.info die.now.die) }
{
    let mut origin = die.again();
    let mut steps = MOST_STEPS;
    while !origin.has(code) {
        if steps == 0 {
            return None;
        }
        origin = origin.linked(at::ABSTRACT_ORIGIN)?;
        steps -= 1;
    }
    Some(origin)
}

/// Whether an abstract_origin more is there after 8 steps. Takes no memory.
pub fn goes_on(die: &Die<'_>) -> bool
    ensures { result ≡ goes_on die.now.info die.now.die }
{
    let mut origin = die.again();
    let mut steps = MOST_STEPS;
    while steps > 0 {
        let Some(next) = origin.linked(at::ABSTRACT_ORIGIN) else {
            return false;
        };
        origin = next;
        steps -= 1;
    }
    origin.has(at::ABSTRACT_ORIGIN)
}

/// Whether an attribute with this code isn't found in 8 steps, though there is a further one. Takes no
/// memory.
pub fn is_too_far(die: &Die<'_>, code: u64) -> bool
    ensures { result ≡ is_too_far code die.now.info die.now.die }
{
    bearer_of(die, code).is_none() && goes_on(die)
}

/// Whether an entry has no name, and none from its origins. Takes no memory.
pub fn is_unnamed(die: &Die<'_>) -> bool
    ensures { result ≡ is_unnamed die.now.info die.now.die }
{
    bearer_of(die, at::NAME).is_none() && !goes_on(die)
}

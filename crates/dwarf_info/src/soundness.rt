//! Whether the set that entries say is sound.
ghost use Rattle.std.specs.Prelude.{◌≡◌, ◌+◌, IfOk, IfErr, slice_get, option_map};
ghost use Rattle.layout_set.specs.FirstBreach.{IsFirstBreach};
ghost use Rattle.layout_set.specs.Laws.{IsSound, sound_laws};
ghost use Rattle.dwarf_entries.specs.Said.{said, set_of, type_dies};
ghost use Rattle.dwarf_dies.specs.Handles.{among};
ghost use Rattle.dwarf_info.specs.Soundness.{IsUnsoundBy};

use dwarf_dies::Die;
use dwarf_entries::rule;
use dwarf_links::TypeLinks;
use layout_model::check_sound;
use layout_set::{CheckErr, Item, ReadErr, Refusal, Section, Set};
use std::alloc::Global;

/// The entry of the type of the set at a place; None where there is no such type.
fn type_die<'a>(links: &TypeLinks<'a>, place: u32) -> Option<Die<'a>>
    ensures { result ≡ option_map (among links.now) (slice_get (type_dies links.now) place) }
{
    let dies = links.dies();
    let number = links.types().get(place as usize)?;
    if *number as usize >= dies.len() {
        return None;
    }
    dies.die(*number)
}

/// The refusal for a law that fails first at a type: where that type's entry begins.
fn refusal_at(links: &TypeLinks<'_>, law: u8, at: Item) -> ReadErr
    requires { IsFirstBreach (set_of links.now) (sound_laws (set_of links.now)) law at }
    ensures { IsUnsoundBy (said links.now) result }
{
    let Item::Def(place) = at else {
        unreachable!();
    };
    let Some(die) = type_die(links, place) else {
        unreachable!();
    };
    ReadErr::Refused(Refusal {
        section: Section::Info,
        offset: die.offset(),
        rule: rule::FIRST_LAW + law,
    })
}

/// Checks that the set that entries say is sound; refuses with the rule of the first law that fails, at the
/// entry of its type.
pub(crate) fn check_soundness(
    alloc: Global,
    links: &TypeLinks<'_>,
    set: &Set,
) -> Result<(), ReadErr>
    requires { set.now ≡ set_of links.now }
    ensures sound { IfOk result (λ u. IsSound (set_of links.now)) }
    ensures refused { IfErr result (IsUnsoundBy (said links.now)) }
{
    match check_sound(alloc, set) {
        Ok(()) => Ok(()),
        Err(CheckErr::Breach { law, at }) => Err(refusal_at(links, law, at)),
        Err(CheckErr::Memory) => Err(ReadErr::Memory),
    }
}

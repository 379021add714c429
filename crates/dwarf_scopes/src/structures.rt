//! The parts of structures (DWARF 5, 5.7.1, 5.7.6 and 5.7.10).
ghost use Rattle.std.specs.Prelude.{◌≡◌, option_and_then};
ghost use Rattle.dwarf_entries.specs.Dies.{parent_of, what};
ghost use Rattle.dwarf_entries.specs.NameRoles.{is_beside_part, is_in_structure, is_of_variant};
ghost use Rattle.dwarf_entries.specs.Structures.{has_part, location_of};
ghost use Rattle.dwarf_entries.specs.TypeLinks.{is_inner_structure};

use crate::tags::{is_part, is_structure, is_variant};
use dwarf_dies::Die;
use dwarf_entries::{Tag, at};

/// Whether a variant part is below an entry. Takes no memory.
pub fn has_part(die: &Die<'_>) -> bool
    ensures { result ≡ has_part die.now.info die.now.die }
{
    for child in die.children() {
        if is_part(child.what()) {
            return true;
        }
    }
    false
}

/// Where a member is in what holds it, in bytes; 0 where nothing says so. Takes no memory.
pub fn location_of(die: &Die<'_>) -> u128
    ensures { result ≡ location_of die.now.die }
{
    die.number_of(at::DATA_MEMBER_LOCATION).unwrap_or(0)
}

/// What the parent of an entry describes.
fn what_is_above(die: &Die<'_>) -> Option<Tag>
    ensures { result ≡ option_and_then what (parent_of die.now.die) }
{
    die.parent()?.what()
}

/// Whether the parent of an entry is a structure. Takes no memory.
pub fn is_in_structure(die: &Die<'_>) -> bool
    ensures { result ≡ is_in_structure die.now.die }
{
    is_structure(what_is_above(die))
}

/// Whether an entry is a structure in a structure, as those of variants are. Takes no memory.
pub fn is_inner_structure(die: &Die<'_>) -> bool
    ensures { result ≡ is_inner_structure die.now.die }
{
    is_structure(die.what()) && is_structure(what_is_above(die))
}

/// Whether the parent of an entry is a variant. Takes no memory.
pub fn is_of_variant(die: &Die<'_>) -> bool
    ensures { result ≡ is_of_variant die.now.die }
{
    is_variant(what_is_above(die))
}

/// Whether the parent of an entry is a structure with a variant part: as a member it says nothing. Takes
/// no memory.
pub fn is_beside_part(die: &Die<'_>) -> bool
    ensures { result ≡ is_beside_part die.now.info die.now.die }
{
    match die.parent() {
        Some(up) => is_structure(up.what()) && has_part(&up),
        None => false,
    }
}

//! Which entries have a variant part, found once for all members (DWARF 5, 5.7.10).
ghost use Rattle.std.specs.Prelude.{◌≡◌, IfOk};
ghost use Rattle.dwarf_entries.specs.NameRoles.{is_beside_part};
ghost use Rattle.dwarf_entries.specs.Structures.{has_part};
ghost use Rattle.dwarf_items.specs.Parts.{are_with_parts};

use dwarf_dies::{Die, Dies};
use dwarf_scopes::has_part;
use dwarf_scopes::tags::is_structure;
use rv_io::{List, Memory};
use std::alloc::Global;

/// Of each entry, in order, whether a variant part is below it.
#[derive(Drop)]
pub(crate) struct Parts {
    has_part: List<bool>,
}

/// Looks below each entry. Takes memory for a bool for each, and as many steps as there are entries.
pub(crate) fn read_parts(alloc: Global, dies: &Dies<'_>) -> Result<Parts, Memory>
    ensures { IfOk result (λ p. p.has_part ≡ are_with_parts dies.now) }
{
    let mut parts = List::new(alloc);
    for die in dies.iter() {
        parts.push(has_part(&die))?;
    }
    Ok(Parts { has_part: parts })
}

impl Parts {
    /// Whether a variant part is below an entry, of those for which this was read.
    fn of(&self, die: &Die<'_>) -> bool
        requires { self.now.has_part ≡ are_with_parts die.now.info }
        ensures { result ≡ has_part die.now.info die.now.die }
    {
        let number = die.number();
        match self.has_part.as_slice().get(number as usize) {
            Some(has) => *has,
            None => false,
        }
    }

    /// Whether the parent of an entry is a structure with a variant part.
    pub(crate) fn is_beside(&self, member: &Die<'_>) -> bool
        requires { self.now.has_part ≡ are_with_parts member.now.info }
        ensures { result ≡ is_beside_part member.now.info member.now.die }
    {
        match member.parent() {
            Some(up) => is_structure(up.what()) && self.of(&up),
            None => false,
        }
    }
}

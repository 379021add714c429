//! The entries that are types of the set.
ghost use Rattle.std.specs.Prelude.{◌≡◌, IfOk};
ghost use Rattle.dwarf_entries.specs.TypeLinks.{is_type_of_set};
ghost use Rattle.dwarf_links.specs.SetTypes.{numbers_of_types};

use dwarf_dies::{Die, Dies};
use dwarf_scopes::tags::is_numbered;
use dwarf_scopes::{is_inner_structure, is_passed};
use rv_io::{List, Memory};
use std::alloc::Global;

/// Whether an entry is a type of the set. Takes no memory.
pub fn is_type_of_set(die: &Die<'_>) -> bool
    ensures { result ≡ is_type_of_set die.now.info die.now.die }
{
    is_numbered(die.what()) && !is_inner_structure(die) && !is_passed(die)
}

/// The types of the set in order, by the numbers of their entries. Takes memory for these.
pub(crate) fn read_types(alloc: Global, dies: &Dies<'_>) -> Result<List<u32>, Memory>
    ensures { IfOk result (λ types. types ≡ numbers_of_types dies.now) }
{
    let mut types = List::new(alloc);
    for die in dies.iter() {
        if is_type_of_set(&die) {
            types.push(die.number())?;
        }
    }
    Ok(types)
}

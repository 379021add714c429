//! The set that entries say.
ghost use Rattle.std.specs.Prelude.{◌≡◌, IfOk, filter, map};
ghost use Rattle.dwarf_entries.specs.Said.{set_of};
ghost use Rattle.dwarf_entries.specs.Statics.{is_static, static_of};
ghost use Rattle.dwarf_laws.specs.Unbroken.{BreaksNone};

use dwarf_links::TypeLinks;
use dwarf_scopes::is_static;
use dwarf_statics::static_of;
use dwarf_types::types;
use layout_set::{Set, Static, Target};
use rv_io::{List, Memory};
use std::alloc::Global;

/// How many bytes a pointer has.
const POINTER_SIZE: u8 = 8;

/// The statics of the set, in the order of their entries.
fn statics(alloc: Global, links: &TypeLinks<'_>) -> Result<List<Static>, Memory>
    ensures { IfOk result (λ statics. statics ≡ map (static_of links.now) (filter (is_static links.now) links.now.dies)) }
{
    let mut statics = List::new(alloc);
    for die in links.dies().iter() {
        if is_static(&die) {
            let variable = static_of(alloc, links, &die)?;
            statics.push(variable)?;
        }
    }
    Ok(statics)
}

/// The types and the statics that entries say, where no item of them breaks a rule.
pub(crate) fn set_of(alloc: Global, links: &TypeLinks<'_>) -> Result<Set, Memory>
    requires { BreaksNone links.now }
    ensures { IfOk result (λ set. set ≡ set_of links.now) }
{
    let types = types(alloc, links)?;
    let statics = statics(alloc, links)?;
    Ok(Set {
        target: Target { ptr: POINTER_SIZE },
        types,
        statics,
        funcs: List::new(alloc),
    })
}

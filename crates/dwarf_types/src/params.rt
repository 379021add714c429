//! The params of structures (DWARF 5, 2.23).
ghost use Rattle.std.specs.Prelude.{◌≡◌, IfOk};
ghost use Rattle.dwarf_entries.specs.Structures.{param_of, params_of};
ghost use Rattle.dwarf_types.specs.Said.{HasParams, IsNamed};

use dwarf_dies::Die;
use dwarf_links::TypeLinks;
use dwarf_names::own_word;
use dwarf_pointers::type_or_unit;
use dwarf_scopes::tags::is_param_tag;
use layout_set::Param;
use rv_io::{List, Memory};
use std::alloc::Global;

/// The param that a template type parameter is. Takes memory for its name.
pub fn param_of(alloc: Global, links: &TypeLinks<'_>, die: &Die<'_>) -> Result<Param, Memory>
    requires here { die.now.info ≡ links.now }
    requires named { IsNamed links.now die.now.die }
    ensures { IfOk result (λ param. param ≡ param_of links.now die.now.die) }
{
    let name = own_word(alloc, die)?;
    let ty = type_or_unit(links, die);
    Ok(Param { name, ty })
}

/// The params of a structure, in order.
pub fn params_of(alloc: Global, links: &TypeLinks<'_>, die: &Die<'_>) -> Result<List<Param>, Memory>
    requires here { die.now.info ≡ links.now }
    requires params { HasParams links.now die.now.die }
    ensures { IfOk result (λ params. params ≡ params_of links.now die.now.die) }
{
    let mut params = List::new(alloc);
    for child in die.children() {
        if is_param_tag(child.what()) {
            let param = param_of(alloc, links, &child)?;
            params.push(param)?;
        }
    }
    Ok(params)
}

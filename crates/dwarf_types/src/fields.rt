//! The fields of structures (DWARF 5, 5.7.6).
ghost use Rattle.std.specs.Prelude.{◌≡◌, IfOk};
ghost use Rattle.dwarf_entries.specs.Structures.{field_of, fields_of};
ghost use Rattle.dwarf_types.specs.Said.{HasFields, IsField};

use dwarf_dies::Die;
use dwarf_links::TypeLinks;
use dwarf_names::own_word;
use dwarf_pointers::type_or_unit;
use dwarf_scopes::tags::is_member;
use dwarf_scopes::{has_part, location_of};
use layout_set::Field;
use rv_io::{List, Memory};
use std::alloc::Global;

/// The field that a member is. Takes memory for its name.
pub fn field_of(alloc: Global, links: &TypeLinks<'_>, die: &Die<'_>) -> Result<Field, Memory>
    requires here { die.now.info ≡ links.now }
    requires field { IsField links.now die.now.die }
    ensures { IfOk result (λ field. field ≡ field_of links.now die.now.die) }
{
    let name = own_word(alloc, die)?;
    let off = location_of(die) as u32;
    let ty = type_or_unit(links, die);
    Ok(Field { name, off, ty })
}

/// The fields of a structure, in order; none where it has a variant part.
pub fn fields_of(alloc: Global, links: &TypeLinks<'_>, die: &Die<'_>) -> Result<List<Field>, Memory>
    requires here { die.now.info ≡ links.now }
    requires fields { HasFields links.now die.now.die }
    ensures { IfOk result (λ fields. fields ≡ fields_of links.now die.now.die) }
{
    let mut fields = List::new(alloc);
    if has_part(die) {
        return Ok(fields);
    }
    for child in die.children() {
        if is_member(child.what()) {
            let field = field_of(alloc, links, &child)?;
            fields.push(field)?;
        }
    }
    Ok(fields)
}

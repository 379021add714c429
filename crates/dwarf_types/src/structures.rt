//! The types that structures are (DWARF 5, 5.7.1).
ghost use Rattle.std.specs.Prelude.{◌≡◌, IfOk};
ghost use Rattle.dwarf_entries.specs.Names.{name_of};
ghost use Rattle.dwarf_entries.specs.Structures.{fields_of, params_of};
ghost use Rattle.dwarf_entries.specs.Types.{alignment_of, size_of, structure_def};
ghost use Rattle.dwarf_types.specs.Said.{HasFields, HasParams, IsSized, IsStructure};
ghost use Rattle.layout_set.specs.declared.set.TypeDef.{TypeDef};

use crate::enums::enum_def;
use crate::fields::fields_of;
use crate::params::params_of;
use crate::sizes::{alignment_of, size_of};
use dwarf_dies::Die;
use dwarf_links::TypeLinks;
use dwarf_names::name_of;
use dwarf_pointers::fat_pointer;
use dwarf_variants::part_of;
use layout_set::TypeDef;
use rv_io::Memory;
use std::alloc::Global;

/// The struct of a structure: its name, size, alignment, params and fields.
pub fn struct_def(alloc: Global, links: &TypeLinks<'_>, die: &Die<'_>) -> Result<TypeDef, Memory>
    requires here { die.now.info ≡ links.now }
    requires sized { IsSized die.now.die }
    requires params { HasParams links.now die.now.die }
    requires fields { HasFields links.now die.now.die }
    ensures { IfOk result (λ def. def ≡ TypeDef.Struct (name_of links.now die.now.die) (size_of die.now.die) (alignment_of die.now.die) (params_of links.now die.now.die) (fields_of links.now die.now.die)) }
{
    let name = name_of(alloc, die)?;
    let params = params_of(alloc, links, die)?;
    let fields = fields_of(alloc, links, die)?;
    Ok(TypeDef::Struct {
        name,
        size: size_of(die),
        align: alignment_of(die),
        params,
        fields,
    })
}

/// The type that a structure is: an enum where it has a variant part, a fat pointer where it is one, and
/// else a struct.
pub fn structure_def(alloc: Global, links: &TypeLinks<'_>, die: &Die<'_>) -> Result<TypeDef, Memory>
    requires here { die.now.info ≡ links.now }
    requires structure { IsStructure links.now die.now.die }
    ensures { IfOk result (λ def. def ≡ structure_def links.now die.now.die) }
{
    if let Some(part) = part_of(die) {
        return enum_def(alloc, links, die, &part);
    }
    match fat_pointer(alloc, links, die)? {
        Some(fat) => Ok(fat),
        None => struct_def(alloc, links, die),
    }
}

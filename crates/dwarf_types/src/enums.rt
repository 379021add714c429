//! Structures with a variant part (DWARF 5, 5.7.10).
ghost use Rattle.std.specs.Prelude.{◌≡◌, IfOk};
ghost use Rattle.dwarf_entries.specs.Types.{enum_def};
ghost use Rattle.dwarf_types.specs.Said.{HasParams, IsPart, IsSized};

use crate::params::params_of;
use crate::sizes::{alignment_of, size_of};
use crate::variants::variants_of;
use dwarf_dies::Die;
use dwarf_enums::Part;
use dwarf_links::TypeLinks;
use dwarf_names::name_of;
use layout_set::TypeDef;
use rv_io::Memory;
use std::alloc::Global;

/// The enum that a structure with this variant part is.
pub fn enum_def(
    alloc: Global,
    links: &TypeLinks<'_>,
    die: &Die<'_>,
    part: &Die<'_>,
) -> Result<TypeDef, Memory>
    requires here { die.now.info ≡ links.now }
    requires part_here { part.now.info ≡ links.now }
    requires sized { IsSized die.now.die }
    requires params { HasParams links.now die.now.die }
    requires part { IsPart links.now part.now.die }
    ensures { IfOk result (λ def. def ≡ enum_def links.now die.now.die part.now.die) }
{
    let name = name_of(alloc, die)?;
    let params = params_of(alloc, links, die)?;
    let part = Part::read(links, part);
    let variants = variants_of(alloc, links, &part)?;
    Ok(TypeDef::Enum {
        name,
        size: size_of(die),
        align: alignment_of(die),
        params,
        tag: part.tag(),
        variants,
    })
}

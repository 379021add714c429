//! The types that entries are, and those of the set.
ghost use Rattle.std.specs.Prelude.{◌≡◌, ◌<◌, ◌^◌, IfOk, true, map, unwrap_or};
ghost use Rattle.dwarf_entries.specs.Names.{name_of};
ghost use Rattle.dwarf_entries.specs.Said.{type_dies};
ghost use Rattle.dwarf_entries.specs.TypeLinks.{is_type_of_set, or_unit, type_of};
ghost use Rattle.dwarf_entries.specs.Types.{alignment_of, count_of, size_of, type_def};
ghost use Rattle.dwarf_laws.specs.Unbroken.{BreaksNone};
ghost use Rattle.dwarf_types.specs.Said.{IsSized};
ghost use Rattle.layout_set.specs.declared.set.TypeDef.{TypeDef};

use crate::cases::enumeration_def;
use crate::sizes::{alignment_of, size_of};
use crate::structures::structure_def;
use dwarf_dies::Die;
use dwarf_entries::Tag;
use dwarf_links::{TypeLinks, is_type_of_set};
use dwarf_names::name_of;
use dwarf_pointers::{count_of, pointer_def, type_or_unit};
use layout_set::TypeDef;
use rv_io::{List, Memory};
use std::alloc::Global;

/// The type that an array is.
fn array_def(links: &TypeLinks<'_>, die: &Die<'_>) -> TypeDef
    requires here { die.now.info ≡ links.now }
    requires count { unwrap_or (count_of links.now die.now.die) 0 < 2 ^ 64 }
    ensures { result ≡ TypeDef.Array (or_unit (type_of links.now die.now.die)) (unwrap_or (count_of links.now die.now.die) 0) }
{
    let count = count_of(die).unwrap_or(0) as u64;
    let elem = type_or_unit(links, die);
    TypeDef::Array { elem, count }
}

/// A type that is shown as bytes.
fn bytes_def(alloc: Global, die: &Die<'_>) -> Result<TypeDef, Memory>
    requires { IsSized die.now.die }
    ensures { IfOk result (λ def. def ≡ TypeDef.Bytes (name_of die.now.info die.now.die) (size_of die.now.die) (alignment_of die.now.die)) }
{
    let name = name_of(alloc, die)?;
    Ok(TypeDef::Bytes {
        name,
        size: size_of(die),
        align: alignment_of(die),
    })
}

/// The type of the set that an entry is, where no entry breaks a rule.
pub fn type_def(alloc: Global, links: &TypeLinks<'_>, die: &Die<'_>) -> Result<TypeDef, Memory>
    requires here { die.now.info ≡ links.now }
    requires unbroken { BreaksNone links.now }
    requires of_set { is_type_of_set links.now die.now.die ≡ true }
    ensures { IfOk result (λ def. def ≡ type_def links.now die.now.die) }
{
    // It has a number, so it is one of the entries that break no rule.
    let _number = die.number();
    match die.what() {
        Some(Tag::StructureType) => structure_def(alloc, links, die),
        Some(Tag::PointerType) => pointer_def(alloc, links, die),
        Some(Tag::ArrayType) => Ok(array_def(links, die)),
        Some(Tag::EnumerationType) => enumeration_def(alloc, links, die),
        _ => bytes_def(alloc, die),
    }
}

/// The types of the set, in the order of their entries, where no entry breaks a rule.
pub fn types(alloc: Global, links: &TypeLinks<'_>) -> Result<List<TypeDef>, Memory>
    requires { BreaksNone links.now }
    ensures { IfOk result (λ types. types ≡ map (type_def links.now) (type_dies links.now)) }
{
    let mut types = List::new(alloc);
    for die in links.dies().iter() {
        if is_type_of_set(&die) {
            let def = type_def(alloc, links, &die)?;
            types.push(def)?;
        }
    }
    Ok(types)
}

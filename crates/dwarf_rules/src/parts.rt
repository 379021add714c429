//! How many parts entries add to the set: fields, params, cases, and variants with their fields.
ghost use Rattle.std.specs.Prelude.{◌≡◌, ◌≤◌, ◌^◌, IfOk, Some, length};
ghost use Rattle.dwarf_entries.specs.Counts.{has_params, is_part_of_enum, is_struct, parts_by, parts_of, test_of};
ghost use Rattle.dwarf_entries.specs.Dies.{parent_of, what};
ghost use Rattle.dwarf_entries.specs.Enums.{fields_in, variant_structure};
ghost use Rattle.dwarf_entries.specs.declared.tag.Tag.{Tag as Meant};
ghost use Rattle.dwarf_rules.specs.Shapes.{shapes_of};

use crate::shapes::Shapes;
use dwarf_dies::Die;
use dwarf_entries::Tag;
use dwarf_enums::variant_structure;
use dwarf_links::is_type_of_set;
use dwarf_pointers::members_of;
use dwarf_scopes::tags::is_enumeration;
use dwarf_scopes::{is_param, is_passed};
use dwarf_variants::is_first_part;
use rv_io::Memory;
use std::alloc::Global;

/// Whether an entry is a struct or an enum of the set: no fat pointer. Takes no memory.
pub fn has_params(shapes: &Shapes, die: &Die<'_>) -> bool
    requires { shapes.now.shapes ≡ shapes_of die.now.info }
    ensures { result ≡ has_params die.now.info die.now.die }
{
    is_type_of_set(die) && !shapes.of(die).is_fat()
}

/// Whether an entry is a struct of the set: no enum, no fat pointer, and no structure in a structure. Takes
/// no memory.
pub fn is_struct(shapes: &Shapes, die: &Die<'_>) -> bool
    requires { shapes.now.shapes ≡ shapes_of die.now.info }
    ensures { result ≡ is_struct die.now.info die.now.die }
{
    is_type_of_set(die) && shapes.of(die).is_plain()
}

/// Whether an entry is the variant part of an enum of the set. Takes no memory.
pub fn is_part_of_enum(part: &Die<'_>) -> bool
    ensures { result ≡ is_part_of_enum part.now.info part.now.die }
{
    if !is_first_part(part) {
        return false;
    }
    match part.parent() {
        Some(up) => is_type_of_set(&up),
        None => false,
    }
}

/// How many fields a member is: one where its structure is a struct of the set.
fn fields_by(shapes: &Shapes, member: &Die<'_>) -> u64
    requires { shapes.now.shapes ≡ shapes_of member.now.info }
    ensures parts { result ≡ parts_by member.now.info member.now.die (Some Meant.Member) }
    ensures few { result ≤ 1 }
{
    match member.parent() {
        Some(up) => u64::from(is_struct(shapes, &up)),
        None => 0,
    }
}

/// How many params a template parameter is: one where it is that of a struct or an enum of the set.
fn params_by(shapes: &Shapes, param: &Die<'_>) -> u64
    requires { shapes.now.shapes ≡ shapes_of param.now.info }
    ensures parts { result ≡ parts_by param.now.info param.now.die (Some Meant.TemplateTypeParameter) }
    ensures few { result ≤ 1 }
{
    if !is_param(param) {
        return 0;
    }
    match param.parent() {
        Some(up) => u64::from(has_params(shapes, &up)),
        None => 0,
    }
}

/// How many cases an enumerator is: one where it is that of an enumeration.
fn cases_by(enumerator: &Die<'_>) -> u64
    ensures parts { result ≡ parts_by enumerator.now.info enumerator.now.die (Some Meant.Enumerator) }
    ensures few { result ≤ 1 }
{
    match enumerator.parent() {
        Some(up) => u64::from(is_enumeration(up.what())),
        None => 0,
    }
}

/// How many fields a variant has: those of its structure.
fn variant_fields(alloc: Global, variant: &Die<'_>) -> Result<usize, Memory>
    ensures fields { IfOk result (λ n. n ≡ length (fields_in variant.now.info (variant_structure variant.now.info variant.now.die))) }
    ensures few { IfOk result (λ n. n ≤ 2 ^ 62) }
{
    match variant_structure(variant) {
        Some(structure) => {
            let members = members_of(alloc, &structure)?;
            Ok(members.as_slice().len())
        }
        None => Ok(0),
    }
}

/// Whether the parent of a variant is the variant part of an enum of the set.
fn is_of_enum(variant: &Die<'_>) -> bool
    ensures { result ≡ test_of (is_part_of_enum variant.now.info) (parent_of variant.now.die) }
{
    match variant.parent() {
        Some(up) => is_part_of_enum(&up),
        None => false,
    }
}

/// How many parts a variant is with its fields, where it is that of an enum of the set.
fn variants_by(alloc: Global, variant: &Die<'_>) -> Result<u64, Memory>
    ensures parts { IfOk result (λ n. n ≡ parts_by variant.now.info variant.now.die (Some Meant.Variant)) }
    ensures few { IfOk result (λ n. n ≤ 2 ^ 63) }
{
    if !is_of_enum(variant) {
        return Ok(0);
    }
    let fields = variant_fields(alloc, variant)?;
    Ok(1 + fields as u64)
}

/// How many parts an entry adds to the set that isn't passed over.
fn parts_by(alloc: Global, shapes: &Shapes, die: &Die<'_>) -> Result<u64, Memory>
    requires { shapes.now.shapes ≡ shapes_of die.now.info }
    ensures parts { IfOk result (λ n. n ≡ parts_by die.now.info die.now.die (what die.now.die)) }
    ensures few { IfOk result (λ n. n ≤ 2 ^ 63) }
{
    match die.what() {
        Some(Tag::Member) => Ok(fields_by(shapes, die)),
        Some(Tag::TemplateTypeParameter) => Ok(params_by(shapes, die)),
        Some(Tag::Enumerator) => Ok(cases_by(die)),
        Some(Tag::Variant) => variants_by(alloc, die),
        _ => Ok(0),
    }
}

/// How many parts an entry adds to the set: a field, a param, a case, or a variant with its fields, each time
/// that these are shared. Takes memory for the members of a variant's structure.
pub fn parts_of(alloc: Global, shapes: &Shapes, die: &Die<'_>) -> Result<u64, Memory>
    requires { shapes.now.shapes ≡ shapes_of die.now.info }
    ensures parts { IfOk result (λ n. n ≡ parts_of die.now.info die.now.die) }
    ensures few { IfOk result (λ n. n ≤ 2 ^ 63) }
{
    if is_passed(die) {
        return Ok(0);
    }
    parts_by(alloc, shapes, die)
}

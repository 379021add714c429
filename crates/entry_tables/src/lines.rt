//! The line of an entry.
ghost use Rattle.std.specs.Prelude.{◌≡◌};

use crate::enums::{put_member, put_part, put_variant};
use crate::shown::{put_rule, put_type};
use crate::types::{put_array, put_base, put_enumeration, put_pointer, put_structure, put_typedef};
use case_words::mistake::Mistake;
use dwarf_dies::Die;
use dwarf_entries::{Tag, at};
use dwarf_links::{TypeLinks, is_type_of_set};
use std::alloc::Global;

/// Adds `NUMBER TAG`, which type of the set it is, where its link leads, and what its tag adds.
pub fn put_line(
    text: &mut String,
    alloc: Global,
    links: &TypeLinks<'_>,
    die: &Die<'_>,
) -> Result<(), Mistake>
    requires { die.now.info ≡ links.now }
{
    put_tag(text, die)?;
    put_place(text, links, die)?;
    put_link(text, links, die)?;
    put_rest(text, alloc, links, die)?;
    text.push_str("\n")?;
    Ok(())
}

/// Adds `NUMBER TAG`.
fn put_tag(text: &mut String, die: &Die<'_>) -> Result<(), Mistake> {
    let number = die.number();
    write!(text, "{number}")?;
    match die.what() {
        Some(tag) => write!(text, " {tag:?}")?,
        None => text.push_str(" unknown")?,
    }
    Ok(())
}

/// Adds ` type PLACE` of a type of the set.
fn put_place(text: &mut String, links: &TypeLinks<'_>, die: &Die<'_>) -> Result<(), Mistake>
    requires { die.now.info ≡ links.now }
{
    if is_type_of_set(die) {
        let place = links.place_in_set(die);
        write!(text, " type {place}")?;
    }
    Ok(())
}

/// Adds ` to TYPE`, where the entry has a link to a type.
fn put_link(text: &mut String, links: &TypeLinks<'_>, die: &Die<'_>) -> Result<(), Mistake>
    requires { die.now.info ≡ links.now }
{
    if die.has(at::TYPE) {
        text.push_str(" to")?;
        put_type(text, links.type_of(die))?;
    }
    Ok(())
}

/// Adds the rule that the link breaks of an entry that needs one.
fn put_typed(text: &mut String, links: &TypeLinks<'_>, die: &Die<'_>) -> Result<(), Mistake>
    requires { die.now.info ≡ links.now }
{
    put_rule(text, links.typed_rule(die))
}

/// Adds what its tag adds.
fn put_rest(
    text: &mut String,
    alloc: Global,
    links: &TypeLinks<'_>,
    die: &Die<'_>,
) -> Result<(), Mistake>
    requires { die.now.info ≡ links.now }
{
    match die.what() {
        Some(Tag::BaseType) => put_base(text, links, die),
        Some(Tag::PointerType) => put_pointer(text, links, die),
        Some(Tag::ArrayType) => put_array(text, links, die),
        Some(Tag::EnumerationType) => put_enumeration(text, links, die),
        Some(Tag::Typedef) => put_typedef(text, die),
        Some(Tag::StructureType) => put_structure(text, alloc, links, die),
        Some(Tag::VariantPart) => put_part(text, links, die),
        Some(Tag::Variant) => put_variant(text, alloc, links, die),
        Some(Tag::Member) => put_member(text, links, die),
        Some(Tag::Variable) => put_typed(text, links, die),
        _ => Ok(()),
    }
}

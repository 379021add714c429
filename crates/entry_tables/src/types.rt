//! What entries of types add to their lines.
ghost use Rattle.std.specs.Prelude.{◌≡◌};

use crate::shown::{put_primitive, put_rule, put_type};
use case_words::mistake::Mistake;
use dwarf_dies::Die;
use dwarf_links::TypeLinks;
use dwarf_pointers::{
    array_rule, count_of, enumeration_primitive, enumeration_rule, fat_pointer, pointee_of,
    pointer_rule, typedef_rule,
};
use layout_set::TypeDef;
use std::alloc::Global;

/// Adds ` is PRIMITIVE`, or the rule that is broken.
pub fn put_base(text: &mut String, links: &TypeLinks<'_>, die: &Die<'_>) -> Result<(), Mistake>
    requires { die.now.info ≡ links.now }
{
    if let Some(prim) = links.primitive_of(die) {
        text.push_str(" is")?;
        put_primitive(text, prim)?;
    }
    put_rule(text, links.base_rule(die))
}

/// Adds ` points to TYPE`, or ` points to nothing` of a pointer to a function, and the rule that is broken.
pub fn put_pointer(text: &mut String, links: &TypeLinks<'_>, die: &Die<'_>) -> Result<(), Mistake>
    requires { die.now.info ≡ links.now }
{
    text.push_str(" points to")?;
    put_type(text, pointee_of(links, die))?;
    put_rule(text, pointer_rule(links, die))
}

/// Adds ` of COUNT`, where there is one, and the rule that is broken.
pub fn put_array(text: &mut String, links: &TypeLinks<'_>, die: &Die<'_>) -> Result<(), Mistake>
    requires { die.now.info ≡ links.now }
{
    if let Some(count) = count_of(die) {
        write!(text, " of {count}")?;
    }
    put_rule(text, array_rule(links, die))
}

/// Adds ` as PRIMITIVE`, and the rule that is broken.
pub fn put_enumeration(
    text: &mut String,
    links: &TypeLinks<'_>,
    die: &Die<'_>,
) -> Result<(), Mistake>
    requires { die.now.info ≡ links.now }
{
    text.push_str(" as")?;
    put_primitive(text, enumeration_primitive(links, die))?;
    put_rule(text, enumeration_rule(links, die))
}

/// Adds the rule that is broken.
pub fn put_typedef(text: &mut String, die: &Die<'_>) -> Result<(), Mistake> {
    put_rule(text, typedef_rule(die))
}

/// The word for a fat pointer; empty for none.
fn word_of(fat: &Option<TypeDef>) -> &'static str {
    match fat {
        Some(TypeDef::Slice { .. }) => " slice",
        Some(TypeDef::Str { .. }) => " text",
        Some(TypeDef::Dyn { .. }) => " dyn",
        _ => "",
    }
}

/// The word for the fat pointer that a structure is.
fn fat_word(alloc: Global, links: &TypeLinks<'_>, die: &Die<'_>) -> Result<&'static str, Mistake>
    requires { die.now.info ≡ links.now }
{
    let fat = fat_pointer(alloc, links, die)?;
    Ok(word_of(&fat))
}

/// Adds which fat pointer a structure is.
pub fn put_structure(
    text: &mut String,
    alloc: Global,
    links: &TypeLinks<'_>,
    die: &Die<'_>,
) -> Result<(), Mistake>
    requires { die.now.info ≡ links.now }
{
    text.push_str(fat_word(alloc, links, die)?)?;
    Ok(())
}

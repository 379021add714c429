//! What variant parts, variants and members add to their lines.
ghost use Rattle.std.specs.Prelude.{◌≡◌};

use crate::shown::{put_primitive, put_rule};
use case_words::mistake::Mistake;
use dwarf_dies::Die;
use dwarf_enums::{Part, part_rule, structure_rule, tag_above, variant_rule, variant_structure};
use dwarf_links::TypeLinks;
use dwarf_scopes::tags::is_variant;
use dwarf_variants::{is_tag_member, tag_member};
use std::alloc::Global;

/// Adds ` by MEMBER` and the type of the tag, where these are there, and the rule that is broken.
pub fn put_part(text: &mut String, links: &TypeLinks<'_>, die: &Die<'_>) -> Result<(), Mistake>
    requires { die.now.info ≡ links.now }
{
    if let Some(member) = tag_member(die) {
        let number = member.number();
        write!(text, " by {number}")?;
    }
    let part = Part::read(links, die);
    if let Some(prim) = part.primitive() {
        put_primitive(text, prim)?;
    }
    put_rule(text, part_rule(links, &part))
}

/// Adds what chooses a variant of a part.
fn put_selector(
    text: &mut String,
    links: &TypeLinks<'_>,
    part: &Die<'_>,
    variant: &Die<'_>,
) -> Result<(), Mistake>
    requires { part.now.info ≡ links.now }
{
    let part = Part::read(links, part);
    let sel = part.selector_of(variant);
    write!(text, " {sel:?}")?;
    Ok(())
}

/// Adds what chooses a variant, the number of its structure, and the rule that is broken.
pub fn put_variant(
    text: &mut String,
    alloc: Global,
    links: &TypeLinks<'_>,
    die: &Die<'_>,
) -> Result<(), Mistake>
    requires { die.now.info ≡ links.now }
{
    if let Some(part) = die.parent() {
        put_selector(text, links, &part, die)?;
    }
    if let Some(structure) = variant_structure(die) {
        let number = structure.number();
        write!(text, " structure {number}")?;
    }
    let tag = tag_above(links, die);
    let rule = variant_rule(alloc, links, tag, die)?;
    put_rule(text, rule)
}

/// Whether a member is one of a variant.
fn is_of_variant(member: &Die<'_>) -> bool {
    match member.parent() {
        Some(up) => is_variant(up.what()),
        None => false,
    }
}

/// Adds ` tag` of that of a part, and the rule that the link of the member breaks.
pub fn put_member(text: &mut String, links: &TypeLinks<'_>, die: &Die<'_>) -> Result<(), Mistake>
    requires { die.now.info ≡ links.now }
{
    if is_tag_member(die) {
        text.push_str(" tag")?;
    }
    if is_of_variant(die) {
        return put_rule(text, structure_rule(links, die));
    }
    put_rule(text, links.typed_rule(die))
}

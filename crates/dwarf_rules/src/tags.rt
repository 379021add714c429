//! The rules that entries break by their tags.
ghost use Rattle.std.specs.Prelude.{◌≡◌, IfOk, Some, true};
ghost use Rattle.dwarf_entries.specs.Dies.{parent_of, what};
ghost use Rattle.dwarf_entries.specs.PassC.{tag_rule};
ghost use Rattle.dwarf_entries.specs.Structures.{is_part};
ghost use Rattle.dwarf_entries.specs.Tags.{passes};
ghost use Rattle.dwarf_entries.specs.TypeLinks.{has_tag_of};
ghost use Rattle.dwarf_entries.specs.declared.tag.Tag.{Tag as Meant};
ghost use Rattle.dwarf_rules.specs.Shapes.{shapes_of};
ghost use Rattle.dwarf_scopes.specs.Tags.{is_base_type};

use crate::members::member_rule;
use crate::shapes::Shapes;
use crate::statics::static_rule;
use dwarf_dies::Die;
use dwarf_entries::{Tag, at};
use dwarf_enums::{Part, part_rule, tag_above, variant_rule};
use dwarf_links::{TypeLinks, lowest};
use dwarf_pointers::{array_rule, enumeration_rule, needs, pointer_rule, typedef_rule};
use dwarf_scopes::tags::is_part;
use dwarf_scopes::{is_param, is_static};
use rv_io::Memory;
use std::alloc::Global;

/// The lowest rule that a template parameter breaks, where it is one of a struct or an enum: it needs a name
/// and a type.
fn param_rule(links: &TypeLinks<'_>, die: &Die<'_>) -> Option<u8>
    requires { die.now.info ≡ links.now }
    ensures { result ≡ tag_rule links.now die.now.die (Some Meant.TemplateTypeParameter) }
{
    if !is_param(die) {
        return None;
    }
    lowest(needs(&[at::NAME], die), links.typed_rule(die))
}

/// The lowest rule that a variant part breaks.
fn part_tag_rule(links: &TypeLinks<'_>, die: &Die<'_>) -> Option<u8>
    requires { die.now.info ≡ links.now }
    ensures { result ≡ tag_rule links.now die.now.die (Some Meant.VariantPart) }
{
    part_rule(links, &Part::read(links, die))
}

/// Whether the parent of an entry is a variant part.
fn is_below_part(die: &Die<'_>) -> bool
    ensures { result ≡ has_tag_of is_part (parent_of die.now.die) }
{
    match die.parent() {
        Some(up) => is_part(up.what()),
        None => false,
    }
}

/// The lowest rule that a variant breaks, where it is below a variant part.
fn variant_tag_rule(
    alloc: Global,
    links: &TypeLinks<'_>,
    die: &Die<'_>,
) -> Result<Option<u8>, Memory>
    requires { die.now.info ≡ links.now }
    ensures { IfOk result (λ rule. rule ≡ tag_rule links.now die.now.die (Some Meant.Variant)) }
{
    if !is_below_part(die) {
        return Ok(None);
    }
    variant_rule(alloc, links, tag_above(links, die), die)
}

/// Rule 40, where an enumerator has no name or no value.
fn enumerator_rule(die: &Die<'_>) -> Option<u8>
    ensures { result ≡ tag_rule die.now.info die.now.die (Some Meant.Enumerator) }
{
    needs(&[at::NAME, at::CONST_VALUE], die)
}

/// The lowest rule that a variable breaks, where it is a static.
fn variable_rule(links: &TypeLinks<'_>, die: &Die<'_>) -> Option<u8>
    requires { die.now.info ≡ links.now }
    ensures { result ≡ tag_rule links.now die.now.die (Some Meant.Variable) }
{
    if is_static(die) {
        static_rule(links, die)
    } else {
        None
    }
}

/// The rule that an entry breaks as a base type.
fn base_tag_rule(links: &TypeLinks<'_>, die: &Die<'_>) -> Option<u8>
    requires links { die.now.info ≡ links.now }
    requires is { passes is_base_type (what die.now.die) ≡ true }
    ensures { result ≡ tag_rule links.now die.now.die (Some Meant.BaseType) }
{
    links.base_rule(die)
}

/// The lowest rule that an entry breaks by its tag. Takes memory for the names and the members of what
/// variants lead to.
pub fn tag_rule(
    alloc: Global,
    links: &TypeLinks<'_>,
    shapes: &Shapes,
    die: &Die<'_>,
) -> Result<Option<u8>, Memory>
    requires links { die.now.info ≡ links.now }
    requires shapes { shapes.now.shapes ≡ shapes_of links.now }
    ensures { IfOk result (λ rule. rule ≡ tag_rule links.now die.now.die (what die.now.die)) }
{
    match die.what() {
        Some(Tag::BaseType) => Ok(base_tag_rule(links, die)),
        Some(Tag::Member) => Ok(member_rule(links, shapes, die)),
        Some(Tag::TemplateTypeParameter) => Ok(param_rule(links, die)),
        Some(Tag::VariantPart) => Ok(part_tag_rule(links, die)),
        Some(Tag::Variant) => variant_tag_rule(alloc, links, die),
        Some(Tag::PointerType) => Ok(pointer_rule(links, die)),
        Some(Tag::ArrayType) => Ok(array_rule(links, die)),
        Some(Tag::EnumerationType) => Ok(enumeration_rule(links, die)),
        Some(Tag::Enumerator) => Ok(enumerator_rule(die)),
        Some(Tag::Typedef) => Ok(typedef_rule(die)),
        Some(Tag::Variable) => Ok(variable_rule(links, die)),
        _ => Ok(None),
    }
}

//! The rules that variant parts, variants and their members break (DWARF 5, 5.7.10).
ghost use Rattle.std.specs.Prelude.{◌≡◌, IfOk, is_none, option_and_then};
ghost use Rattle.dwarf_entries.specs.Dies.{parent_of};
ghost use Rattle.dwarf_entries.specs.EnumRules.{is_misshapen, part_rule, structure_rule, variant_rule};
ghost use Rattle.dwarf_entries.specs.Enums.{tag_primitive, variant_member};
ghost use Rattle.dwarf_entries.specs.Items.{rule_if};
ghost use Rattle.dwarf_entries.specs.Rules.{enum_shape, missing};
ghost use Rattle.dwarf_enums.specs.Shapes.{has_many_members, is_block_misfit, is_other_shape, leads_elsewhere, member_leads_elsewhere};

use crate::lengths::length_rule;
use crate::part::Part;
use crate::tags::has_user_tag;
use dwarf_dies::Die;
use dwarf_entries::{at, rule};
use dwarf_links::{End, TypeLinks, lowest, rule_if, type_end};
use dwarf_scopes::tags::is_structure;
use dwarf_variants::{
    has_two_defaults, is_first_part, is_listed, lacks_discr, members_in, number_in, tag_member,
    variant_member,
};
use layout_set::Primitive;
use rv_io::Memory;
use std::alloc::Global;

/// Whether a part has another shape than an enum's.
fn is_misshapen(links: &TypeLinks<'_>, part: &Part<'_>) -> bool
    requires { part.now.info ≡ links.now }
    ensures { result ≡ is_misshapen links.now part.now.die }
{
    let entry = part.entry();
    !is_first_part(entry)
        || lacks_discr(entry)
        || (entry.has(at::DISCR) && has_two_defaults(entry))
        || has_user_tag(links, entry)
        || part.lacks_room()
}

/// The rule that a variant part breaks: 44 where it has another shape than an enum's, 45 where its discr
/// names no member of it. Takes no memory.
pub fn part_rule(links: &TypeLinks<'_>, part: &Part<'_>) -> Option<u8>
    requires { part.now.info ≡ links.now }
    ensures { result ≡ part_rule links.now part.now.die }
{
    let entry = part.entry();
    let shape = rule_if(is_misshapen(links, part), rule::ENUM_SHAPE);
    let tag = rule_if(
        entry.has(at::DISCR) && tag_member(entry).is_none(),
        rule::NO_TAG_MEMBER,
    );
    lowest(shape, tag)
}

/// The rule that the link of a variant's member breaks; it may lead to a structure in a structure. Takes
/// no memory.
pub fn structure_rule(links: &TypeLinks<'_>, member: &Die<'_>) -> Option<u8>
    requires { member.now.info ≡ links.now }
    ensures { result ≡ structure_rule links.now member.now.die }
{
    if !member.has(at::TYPE) {
        return Some(rule::MISSING);
    }
    match type_end(member) {
        End::Reached(entry) => {
            if is_structure(entry.what()) {
                None
            } else {
                links.type_rule(member)
            }
        }
        End::Nowhere => links.type_rule(member),
        End::Endless => links.type_rule(member),
    }
}

/// Whether a variant has more than one member.
fn has_many_members(variant: &Die<'_>) -> bool
    ensures { result ≡ has_many_members variant.now.info variant.now.die }
{
    let mut members = members_in(variant);
    members.next().is_some() && members.next().is_some()
}

/// Whether the type of a member is none of a structure.
fn leads_elsewhere(links: &TypeLinks<'_>, member: &Die<'_>) -> bool
    requires { member.now.info ≡ links.now }
    ensures { result ≡ leads_elsewhere links.now member.now.die }
{
    match type_end(member) {
        End::Reached(entry) => !is_structure(entry.what()) && links.type_at(&entry).is_some(),
        End::Nowhere | End::Endless => false,
    }
}

/// The same of a variant's member, where it has one.
fn member_leads_elsewhere(links: &TypeLinks<'_>, variant: &Die<'_>) -> bool
    requires { variant.now.info ≡ links.now }
    ensures { result ≡ member_leads_elsewhere links.now variant.now.die }
{
    match variant_member(variant) {
        Some(member) => leads_elsewhere(links, &member),
        None => false,
    }
}

/// Whether the number that a variant lists for a tag of this type is a block of another size.
fn is_block_misfit(tag: Option<Primitive>, variant: &Die<'_>) -> bool
    ensures { result ≡ is_block_misfit tag variant.now.die }
{
    match tag {
        Some(prim) => is_listed(variant) && number_in(prim, variant).is_none(),
        None => false,
    }
}

/// Whether a variant, below a part whose tag has this type, has another shape than an enum's.
fn is_other_shape(links: &TypeLinks<'_>, tag: Option<Primitive>, variant: &Die<'_>) -> bool
    requires { variant.now.info ≡ links.now }
    ensures { result ≡ is_other_shape links.now tag variant.now.die }
{
    has_many_members(variant)
        || member_leads_elsewhere(links, variant)
        || variant.has(at::DISCR_LIST)
        || is_block_misfit(tag, variant)
}

/// Rule 40, where a variant has no member.
fn member_rule(variant: &Die<'_>) -> Option<u8>
    ensures { result ≡ rule_if (is_none (variant_member variant.now.info variant.now.die)) missing }
{
    rule_if(variant_member(variant).is_none(), rule::MISSING)
}

/// Rule 44, where a variant, below a part whose tag has this type, has another shape than an enum's.
fn shape_rule(links: &TypeLinks<'_>, tag: Option<Primitive>, variant: &Die<'_>) -> Option<u8>
    requires { variant.now.info ≡ links.now }
    ensures { result ≡ rule_if (is_other_shape links.now tag variant.now.die) enum_shape }
{
    rule_if(is_other_shape(links, tag, variant), rule::ENUM_SHAPE)
}

/// The lowest rule that a variant breaks: 40 where it has no member, 44 where it has another shape than an
/// enum's, and those of the type of its structure's length, where that is a fat pointer. Takes memory for
/// the structure's name and its members.
pub fn variant_rule(
    alloc: Global,
    links: &TypeLinks<'_>,
    tag: Option<Primitive>,
    variant: &Die<'_>,
) -> Result<Option<u8>, Memory>
    requires links { variant.now.info ≡ links.now }
    requires tag { tag ≡ option_and_then (tag_primitive links.now) (parent_of variant.now.die) }
    ensures { IfOk result (λ rule. rule ≡ variant_rule links.now variant.now.die) }
{
    let member = member_rule(variant);
    let shape = shape_rule(links, tag, variant);
    let length = length_rule(alloc, links, variant)?;
    let others = lowest(shape, length);
    Ok(lowest(member, others))
}

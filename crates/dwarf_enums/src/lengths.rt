//! The lengths of fat pointers that are structures of variants.
ghost use Rattle.std.specs.Prelude.{◌≡◌, if◌then◌else◌, IfOk, None, Some, bytes_eq, codes, is_some, true};
ghost use Rattle.dwarf_entries.specs.EnumRules.{length_rule};
ghost use Rattle.dwarf_entries.specs.Enums.{variant_structure};
ghost use Rattle.dwarf_entries.specs.Pointers.{fat_pointer};
ghost use Rattle.dwarf_entries.specs.Texts.{own_text};
ghost use Rattle.dwarf_entries.specs.TypeLinks.{typed_rule};

use crate::structures::variant_structure;
use dwarf_dies::Die;
use dwarf_links::{TypeLinks, lowest};
use dwarf_names::own_text;
use dwarf_pointers::{fat_pointer, members_of};
use rv_io::Memory;
use std::alloc::Global;

/// Whether a member has the name of a length.
fn is_named_length(member: &Die<'_>) -> bool
    ensures { result ≡ bytes_eq (own_text member.now.info member.now.die) (codes "length") }
{
    own_text(member) == b"length".as_slice()
}

/// The rule that the type of a member breaks, where it has the name of a length.
fn rule_by_name(links: &TypeLinks<'_>, member: &Die<'_>) -> Option<u8>
    requires { member.now.info ≡ links.now }
    ensures { result ≡ (if bytes_eq (own_text links.now member.now.die) (codes "length") then typed_rule links.now member.now.die else None) }
{
    if is_named_length(member) {
        links.typed_rule(member)
    } else {
        None
    }
}

/// Whether a structure is a fat pointer.
fn is_fat(alloc: Global, links: &TypeLinks<'_>, structure: &Die<'_>) -> Result<bool, Memory>
    requires { structure.now.info ≡ links.now }
    ensures { IfOk result (λ b. b ≡ is_some (fat_pointer links.now structure.now.die)) }
{
    let fat = fat_pointer(alloc, links, structure)?;
    Ok(fat.is_some())
}

/// The rule that the type of a fat pointer's length breaks.
fn rule_of_fat(
    alloc: Global,
    links: &TypeLinks<'_>,
    structure: &Die<'_>,
) -> Result<Option<u8>, Memory>
    requires here { structure.now.info ≡ links.now }
    requires fat { is_some (fat_pointer links.now structure.now.die) ≡ true }
    ensures { IfOk result (λ rule. rule ≡ length_rule links.now (Some structure.now.die)) }
{
    let members = members_of(alloc, structure)?;
    match members.as_slice() {
        [first, second] => {
            let one = rule_by_name(links, first);
            let other = rule_by_name(links, second);
            Ok(lowest(one, other))
        }
        _ => Ok(None),
    }
}

/// The same of any structure; none where it is no fat pointer.
fn rule_of_structure(
    alloc: Global,
    links: &TypeLinks<'_>,
    structure: &Die<'_>,
) -> Result<Option<u8>, Memory>
    requires { structure.now.info ≡ links.now }
    ensures { IfOk result (λ rule. rule ≡ length_rule links.now (Some structure.now.die)) }
{
    if !is_fat(alloc, links, structure)? {
        return Ok(None);
    }
    rule_of_fat(alloc, links, structure)
}

/// The same of the structure of a variant. Takes memory for its name and its members.
pub(crate) fn length_rule(
    alloc: Global,
    links: &TypeLinks<'_>,
    variant: &Die<'_>,
) -> Result<Option<u8>, Memory>
    requires { variant.now.info ≡ links.now }
    ensures { IfOk result (λ rule. rule ≡ length_rule links.now (variant_structure links.now variant.now.die)) }
{
    match variant_structure(variant) {
        Some(structure) => rule_of_structure(alloc, links, &structure),
        None => Ok(None),
    }
}

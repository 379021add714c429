//! The rules that members break (DWARF 5, 5.7.6).
ghost use Rattle.std.specs.Prelude.{◌≡◌};
ghost use Rattle.dwarf_entries.specs.NameRoles.{is_beside_part};
ghost use Rattle.dwarf_entries.specs.PassC.{member_rule, named_rule};
ghost use Rattle.dwarf_rules.specs.Shapes.{shapes_of};

use crate::lengths::field_type_rule;
use crate::lowest::lowest_of_three;
use crate::shapes::Shapes;
use dwarf_dies::Die;
use dwarf_entries::at;
use dwarf_enums::structure_rule;
use dwarf_links::{TypeLinks, lowest};
use dwarf_pointers::{bit_rule, needs};
use dwarf_scopes::tags::is_structure;
use dwarf_scopes::{is_in_structure, is_of_variant};
use dwarf_variants::is_tag_member;

/// The lowest rule that a member breaks which needs a name, and whose type breaks this rule. Takes no
/// memory.
pub fn named_rule(member: &Die<'_>, type_rule: Option<u8>) -> Option<u8>
    ensures { result ≡ named_rule member.now.die type_rule }
{
    lowest_of_three(needs(&[at::NAME], member), type_rule, bit_rule(member))
}

/// Whether the parent of a member is a structure with a variant part.
fn is_beside_part(shapes: &Shapes, member: &Die<'_>) -> bool
    requires { shapes.now.shapes ≡ shapes_of member.now.info }
    ensures { result ≡ is_beside_part member.now.info member.now.die }
{
    match member.parent() {
        Some(up) => is_structure(up.what()) && shapes.of(&up).is_enum(),
        None => false,
    }
}

/// The lowest rule that a member breaks, by where it is: a field, that of a variant, the tag of a variant
/// part, or none of these, which says nothing. Takes no memory.
pub fn member_rule(links: &TypeLinks<'_>, shapes: &Shapes, member: &Die<'_>) -> Option<u8>
    requires links { member.now.info ≡ links.now }
    requires shapes { shapes.now.shapes ≡ shapes_of links.now }
    ensures { result ≡ member_rule links.now member.now.die }
{
    if is_beside_part(shapes, member) {
        return None;
    }
    if is_in_structure(member) {
        return named_rule(member, field_type_rule(links, shapes, member));
    }
    if is_of_variant(member) {
        return named_rule(member, structure_rule(links, member));
    }
    if is_tag_member(member) {
        return lowest(links.typed_rule(member), bit_rule(member));
    }
    None
}

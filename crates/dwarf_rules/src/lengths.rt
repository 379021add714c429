//! The lengths of fat pointers.
ghost use Rattle.std.specs.Prelude.{◌≡◌, if◌then◌else◌, None, true, bytes_eq, codes};
ghost use Rattle.dwarf_entries.specs.Dies.{parent_of};
ghost use Rattle.dwarf_entries.specs.EnumRules.{is_length};
ghost use Rattle.dwarf_entries.specs.NameRoles.{is_in_structure};
ghost use Rattle.dwarf_entries.specs.Texts.{own_text};
ghost use Rattle.dwarf_entries.specs.TypeLinks.{typed_rule};
ghost use Rattle.dwarf_rules.specs.Shapes.{shapes_of};

use crate::shapes::Shapes;
use dwarf_dies::Die;
use dwarf_links::TypeLinks;
use dwarf_names::own_text;

/// Whether a member has the name of a length.
fn is_named_length(member: &Die<'_>) -> bool
    ensures { result ≡ bytes_eq (own_text member.now.info member.now.die) (codes "length") }
{
    own_text(member) == b"length".as_slice()
}

/// Whether a member of a structure is the length of a fat pointer, the second member of one to a slice or a
/// text. Its type isn't looked at.
pub(crate) fn is_length(shapes: &Shapes, member: &Die<'_>) -> bool
    requires shapes { shapes.now.shapes ≡ shapes_of member.now.info }
    requires inside { is_in_structure member.now.die ≡ true }
    ensures { result ≡ is_length member.now.info (parent_of member.now.die) member.now.die }
{
    match member.parent() {
        Some(up) => shapes.of(&up).is_fat() && is_named_length(member),
        None => false,
    }
}

/// The rule that the type of a field breaks: none where it is the length of a fat pointer.
pub(crate) fn field_type_rule(
    links: &TypeLinks<'_>,
    shapes: &Shapes,
    member: &Die<'_>,
) -> Option<u8>
    requires links { member.now.info ≡ links.now }
    requires shapes { shapes.now.shapes ≡ shapes_of links.now }
    requires inside { is_in_structure member.now.die ≡ true }
    ensures { result ≡ (if is_length links.now (parent_of member.now.die) member.now.die then None else typed_rule links.now member.now.die) }
{
    if is_length(shapes, member) {
        None
    } else {
        links.typed_rule(member)
    }
}

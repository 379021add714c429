//! The types of tags (DWARF 5, 5.7.10).
ghost use Rattle.std.specs.Prelude.{◌≡◌, option_and_then};
ghost use Rattle.dwarf_entries.specs.Dies.{parent_of};
ghost use Rattle.dwarf_entries.specs.EnumRules.{has_user_tag};
ghost use Rattle.dwarf_entries.specs.Enums.{tag_member, tag_primitive};
ghost use Rattle.dwarf_entries.specs.TypeLinks.{type_of};

use dwarf_dies::Die;
use dwarf_links::TypeLinks;
use dwarf_variants::{is_tagless, tag_member};
use layout_set::{Primitive, TypeRef};

/// The type of the member that a part's discr names.
fn type_of_tag(links: &TypeLinks<'_>, part: &Die<'_>) -> Option<TypeRef>
    requires { part.now.info ≡ links.now }
    ensures { result ≡ option_and_then (type_of links.now) (tag_member links.now part.now.die) }
{
    let member = tag_member(part)?;
    links.type_of(&member)
}

/// The type of a part's tag, where it has one and it is a primitive. Takes no memory.
pub fn tag_primitive(links: &TypeLinks<'_>, part: &Die<'_>) -> Option<Primitive>
    requires { part.now.info ≡ links.now }
    ensures { result ≡ tag_primitive links.now part.now.die }
{
    if is_tagless(part) {
        return None;
    }
    match type_of_tag(links, part) {
        Some(TypeRef::Prim(prim)) => Some(prim),
        _ => None,
    }
}

/// The same of the part that a variant is below. Takes no memory.
pub fn tag_above(links: &TypeLinks<'_>, variant: &Die<'_>) -> Option<Primitive>
    requires { variant.now.info ≡ links.now }
    ensures { result ≡ option_and_then (tag_primitive links.now) (parent_of variant.now.die) }
{
    let part = variant.parent()?;
    tag_primitive(links, &part)
}

/// Whether the type of a part's tag is one of the set. Takes no memory.
pub(crate) fn has_user_tag(links: &TypeLinks<'_>, part: &Die<'_>) -> bool
    requires { part.now.info ≡ links.now }
    ensures { result ≡ has_user_tag links.now part.now.die }
{
    !is_tagless(part) && matches!(type_of_tag(links, part), Some(TypeRef::User(_)))
}

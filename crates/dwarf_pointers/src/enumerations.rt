//! Enumerations, by their types (DWARF 5, 5.7).
ghost use Rattle.std.specs.Prelude.{◌≡◌, [], ◌∷◌};
ghost use Rattle.dwarf_entries.specs.Items.{lowest};
ghost use Rattle.dwarf_entries.specs.PassC.{enumeration_rule};
ghost use Rattle.dwarf_entries.specs.TypeLinks.{typed_rule};
ghost use Rattle.dwarf_entries.specs.Types.{enumeration_primitive};
ghost use Rattle.dwarf_pointers.specs.WholeNumbers.{is_no_integer, is_no_whole};

use dwarf_dies::Die;
use dwarf_entries::rule;
use dwarf_links::{End, TypeLinks, lowest, rule_if, type_end};
use dwarf_scopes::tags::is_base_type;
use layout_set::{Primitive, TypeRef, is_whole};

/// The primitive of an enumeration; the unit stands for one that breaks a rule. Takes no memory.
pub fn enumeration_primitive(links: &TypeLinks<'_>, die: &Die<'_>) -> Primitive
    requires { die.now.info ≡ links.now }
    ensures { result ≡ enumeration_primitive links.now die.now.die }
{
    match links.type_of(die) {
        Some(TypeRef::Prim(prim)) => prim,
        Some(TypeRef::User(_)) => Primitive::Unit,
        None => Primitive::Unit,
    }
}

/// Whether this is a primitive that is no whole number.
fn is_no_whole(prim: Option<Primitive>) -> bool
    ensures { result ≡ is_no_whole prim }
{
    match prim {
        Some(prim) => !is_whole(prim),
        None => false,
    }
}

/// Whether an entry is no base type, or one that is another primitive than a whole number.
fn is_no_integer(links: &TypeLinks<'_>, die: &Die<'_>) -> bool
    requires { die.now.info ≡ links.now }
    ensures { result ≡ is_no_integer links.now die.now.die }
{
    !is_base_type(die.what()) || is_no_whole(links.primitive_of(die))
}

/// Rule 41, where the link of an enumeration leads to no whole number.
fn integer_rule(links: &TypeLinks<'_>, die: &Die<'_>) -> Option<u8>
    requires { die.now.info ≡ links.now }
    ensures { lowest (typed_rule links.now die.now.die ∷ result ∷ []) ≡ enumeration_rule links.now die.now.die }
{
    match type_end(die) {
        End::Reached(end) => rule_if(is_no_integer(links, &end), rule::NO_TYPE),
        End::Nowhere => None,
        End::Endless => None,
    }
}

/// The lowest rule that an enumeration breaks: those of a link to a type, or 41 where that is no whole
/// number. A base type that is no primitive is itself invalid. Takes no memory.
pub fn enumeration_rule(links: &TypeLinks<'_>, die: &Die<'_>) -> Option<u8>
    requires { die.now.info ≡ links.now }
    ensures { result ≡ enumeration_rule links.now die.now.die }
{
    lowest(links.typed_rule(die), integer_rule(links, die))
}

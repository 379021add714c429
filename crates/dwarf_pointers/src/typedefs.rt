//! Typedefs, by what they lead to (DWARF 5, 5.3).
ghost use Rattle.std.specs.Prelude.{◌≡◌};
ghost use Rattle.dwarf_entries.specs.PassC.{typedef_rule};
ghost use Rattle.dwarf_entries.specs.TypeLinks.{or_unit, type_of};

use dwarf_dies::Die;
use dwarf_entries::{at, rule};
use dwarf_links::{End, TypeLinks, rule_if, type_end};
use dwarf_scopes::tags::is_type;
use layout_set::{Primitive, TypeRef};

/// The rule that the link of a typedef breaks: 40 where it is missing, 41 where it leads to no type, 46
/// where it leads through more than 64 typedefs. Takes no memory.
pub fn typedef_rule(die: &Die<'_>) -> Option<u8>
    ensures { result ≡ typedef_rule die.now.info die.now.die }
{
    if !die.has(at::TYPE) {
        return Some(rule::MISSING);
    }
    match type_end(die) {
        End::Reached(end) => rule_if(!is_type(end.what()), rule::NO_TYPE),
        End::Nowhere => Some(rule::NO_TYPE),
        End::Endless => Some(rule::TOO_LONG),
    }
}

/// The type to which the link of an entry leads; the unit where it leads to none. Takes no memory.
pub fn type_or_unit(links: &TypeLinks<'_>, die: &Die<'_>) -> TypeRef
    requires { die.now.info ≡ links.now }
    ensures { result ≡ or_unit (type_of links.now die.now.die) }
{
    links.type_of(die).unwrap_or(TypeRef::Prim(Primitive::Unit))
}

//! Pointers, by what they lead to (DWARF 5, 5.3).
ghost use Rattle.std.specs.Prelude.{◌≡◌, if◌then◌else◌, IfOk, None};
ghost use Rattle.dwarf_entries.specs.Dies.{what};
ghost use Rattle.dwarf_entries.specs.Pointers.{ends_at_function, pointee_of, pointer_def, pointer_rule, thin_pointee};
ghost use Rattle.dwarf_entries.specs.Tags.{passes};
ghost use Rattle.dwarf_entries.specs.TypeLinks.{type_end};
ghost use Rattle.dwarf_scopes.specs.Tags.{is_pointer};

use crate::typedefs::type_or_unit;
use dwarf_dies::Die;
use dwarf_entries::{at, kind_of_name};
use dwarf_links::{End, TypeLinks, type_end};
use dwarf_names::joined_text;
use dwarf_scopes::tags::{is_pointer, is_subroutine};
use layout_set::{Primitive, TypeDef, TypeRef};
use rv_io::Memory;
use std::alloc::Global;

/// Whether the link of an entry leads to a function's type. Takes no memory.
pub fn ends_at_function(die: &Die<'_>) -> bool
    ensures { result ≡ ends_at_function (type_end die.now.info die.now.die) }
{
    match type_end(die) {
        End::Reached(end) => is_subroutine(end.what()),
        End::Nowhere => false,
        End::Endless => false,
    }
}

/// What a pointer leads to: None where that is a function, and the unit where the pointer has no type.
/// Takes no memory.
pub fn pointee_of(links: &TypeLinks<'_>, die: &Die<'_>) -> Option<TypeRef>
    requires { die.now.info ≡ links.now }
    ensures { result ≡ pointee_of links.now die.now.die }
{
    if !die.has(at::TYPE) {
        return Some(TypeRef::Prim(Primitive::Unit));
    }
    if ends_at_function(die) {
        return None;
    }
    Some(type_or_unit(links, die))
}

/// The rule that the link of a pointer breaks: 41 where it leads to no type, 46 where it leads through more
/// than 64 typedefs. It alone may lead to a function's type, and may be missing. Takes no memory.
pub fn pointer_rule(links: &TypeLinks<'_>, die: &Die<'_>) -> Option<u8>
    requires { die.now.info ≡ links.now }
    ensures { result ≡ pointer_rule links.now die.now.die }
{
    if !die.has(at::TYPE) {
        return None;
    }
    if ends_at_function(die) {
        return None;
    }
    links.type_rule(die)
}

/// What an entry leads to, where it is a pointer.
fn pointee_at(links: &TypeLinks<'_>, die: &Die<'_>) -> Option<TypeRef>
    requires { die.now.info ≡ links.now }
    ensures { result ≡ (if passes is_pointer (what die.now.die) then pointee_of links.now die.now.die else None) }
{
    if is_pointer(die.what()) {
        pointee_of(links, die)
    } else {
        None
    }
}

/// What the thin pointer leads to that is the type of a member; None where that is no pointer, or one to a
/// function. Takes no memory.
pub fn thin_pointee(links: &TypeLinks<'_>, die: &Die<'_>) -> Option<TypeRef>
    requires { die.now.info ≡ links.now }
    ensures { result ≡ thin_pointee links.now die.now.die }
{
    match type_end(die) {
        End::Reached(end) => pointee_at(links, &end),
        End::Nowhere => None,
        End::Endless => None,
    }
}

/// The type that a pointer is. Takes memory for its name.
pub fn pointer_def(alloc: Global, links: &TypeLinks<'_>, die: &Die<'_>) -> Result<TypeDef, Memory>
    requires { die.now.info ≡ links.now }
    ensures { IfOk result (λ def. def ≡ pointer_def links.now die.now.die) }
{
    let name = joined_text(alloc, die)?;
    let kind = kind_of_name(name.as_slice());
    Ok(match pointee_of(links, die) {
        Some(to) => TypeDef::Thin { kind, to },
        None => TypeDef::FnPtr,
    })
}

//! Statics: their names, types and addresses (DWARF 5, 4.1 and 2.6.1.1.2).
ghost use Rattle.std.specs.Prelude.{◌≡◌, IfOk, option_and_then, option_map, unwrap_or};
ghost use Rattle.dwarf_abbrev.specs.Values.{val_of};
ghost use Rattle.dwarf_entries.specs.AddressOps.{address_at};
ghost use Rattle.dwarf_entries.specs.Origins.{bearer_of};
ghost use Rattle.dwarf_entries.specs.Statics.{address_op, address_op_in, static_address, static_of};
ghost use Rattle.dwarf_dies.specs.Handles.{beside};

use dwarf_abbrev::Attr;
use dwarf_dies::Die;
use dwarf_entries::{Address, AddressOp, address_of, address_op, at};
use dwarf_links::TypeLinks;
use dwarf_names::name_of;
use dwarf_scopes::bearer_of;
use layout_set::{Primitive, Static, TypeRef};
use rv_io::Memory;
use std::alloc::Global;

/// The operation that alone is an expression, where it is one of an address.
fn address_op_in(value: Attr<'_>) -> Option<AddressOp>
    ensures { result ≡ address_op_in (val_of value.entry) }
{
    match value {
        Attr::Expr(bytes) => address_op(bytes),
        _ => None,
    }
}

/// The operation that alone is the location of an entry, where it is one of an address.
fn location_op(die: &Die<'_>) -> Option<AddressOp>
    ensures { result ≡ address_op die.now.die }
{
    let value = die.value(at::LOCATION)?;
    address_op_in(value)
}

/// The address of an operation, with the bases of the entry's unit.
fn address_at(die: &Die<'_>, address: Address) -> Option<u64>
    ensures { result ≡ address_at die.now.info.sections die.now.die.bases address }
{
    match address {
        Address::Fixed(n) => Some(n),
        Address::Index(index) => address_of(&die.sections(), die.bases(), Attr::AddrIndex(index)),
    }
}

/// The address of a static, if it has one: that of the one operation that its location is. Takes no
/// memory.
pub fn static_address(die: &Die<'_>) -> Option<u64>
    ensures { result ≡ static_address die.now.info die.now.die }
{
    let op = location_op(die)?;
    address_at(die, op.address)
}

/// The entry that has an attribute with this code for an entry: itself, or one of its origins, and itself
/// where none has it.
fn bearer_or_itself<'a>(die: &Die<'a>, code: u64) -> Die<'a>
    ensures { result ≡ beside die.now (unwrap_or (bearer_of code die.now.info die.now.die) die.now.die) }
{
    match bearer_of(die, code) {
        Some(bearer) => bearer,
        None => die.again(),
    }
}

/// A static: its name and its type may be those of an origin; a type that isn't there is the unit. Takes
/// memory for its name.
pub fn static_of(alloc: Global, links: &TypeLinks<'_>, die: &Die<'_>) -> Result<Static, Memory>
    requires { die.now.info ≡ links.now }
    ensures { IfOk result (λ s. s ≡ static_of links.now die.now.die) }
{
    let name = name_of(alloc, &bearer_or_itself(die, at::NAME))?;
    let ty = links
        .type_of(&bearer_or_itself(die, at::TYPE))
        .unwrap_or(TypeRef::Prim(Primitive::Unit));
    Ok(Static {
        name,
        ty,
        addr: static_address(die),
    })
}

//! The primitives that base types are (DWARF 5, 5.1.1 and 7.8, table 7.11).
ghost use Rattle.std.specs.Prelude.{◌≡◌, bytes_eq};
ghost use Rattle.std.specs.Option.{option_map};
ghost use Rattle.dwarf_abbrev.specs.Values.{val_of};
ghost use Rattle.dwarf_entries.specs.Primitives.{base_type, by_numbers, primitive, long_integer, signed_integer, unsigned_integer, float, character, of_one_byte};

use crate::constant::natural;
use crate::rule;
use dwarf_abbrev::Attr;
use layout_set::Primitive;

const BOOLEAN: u128 = 0x02;

const FLOAT: u128 = 0x04;

const SIGNED: u128 = 0x05;

const SIGNED_CHAR: u128 = 0x06;

const UNSIGNED: u128 = 0x07;

const UNSIGNED_CHAR: u128 = 0x08;

const UTF: u128 = 0x10;

/// Whether this is the name.
fn is_named(name: &[u8], word: &[u8]) -> bool
    ensures { result ≡ bytes_eq name.now word.now }
{
    name == word
}

/// The integer of 8 bytes that its name says, or else this one.
fn long_integer(name: &[u8], other: Primitive) -> Primitive
    ensures { result ≡ long_integer name.now other }
{
    if is_named(name, b"isize") {
        Primitive::Isize
    } else if is_named(name, b"usize") {
        Primitive::Usize
    } else {
        other
    }
}

/// The integer with a sign that has so many bytes.
fn signed_integer(size: u128, name: &[u8]) -> Option<Primitive>
    ensures { result ≡ signed_integer size name.now }
{
    match size {
        1 => Some(Primitive::I8),
        2 => Some(Primitive::I16),
        4 => Some(Primitive::I32),
        8 => Some(long_integer(name, Primitive::I64)),
        16 => Some(Primitive::I128),
        _ => None,
    }
}

/// The integer without a sign that has so many bytes; the unit has none, and its name.
fn unsigned_integer(size: u128, name: &[u8]) -> Option<Primitive>
    ensures { result ≡ unsigned_integer size name.now }
{
    match size {
        1 => Some(Primitive::U8),
        2 => Some(Primitive::U16),
        4 => Some(Primitive::U32),
        8 => Some(long_integer(name, Primitive::U64)),
        16 => Some(Primitive::U128),
        0 if is_named(name, b"()") => Some(Primitive::Unit),
        _ => None,
    }
}

/// The float that has so many bytes.
fn float(size: u128) -> Option<Primitive>
    ensures { result ≡ float size }
{
    match size {
        4 => Some(Primitive::F32),
        8 => Some(Primitive::F64),
        _ => None,
    }
}

/// The character, which has 4 bytes and its name.
fn character(size: u128, name: &[u8]) -> Option<Primitive>
    ensures { result ≡ character size name.now }
{
    if size == 4 && is_named(name, b"char") {
        Some(Primitive::Char)
    } else {
        None
    }
}

/// The primitive, where this is the only size that it may have.
fn of_one_byte(size: u128, prim: Primitive) -> Option<Primitive>
    ensures { result ≡ of_one_byte size prim }
{
    if size == 1 { Some(prim) } else { None }
}

/// The primitive of this encoding (DW_ATE), with so many bytes and this name.
#[tactic(auto, unfolding(crate::specs::Primitives::primitive))]
fn primitive(encoding: u128, size: u128, name: &[u8]) -> Option<Primitive>
    ensures { result ≡ primitive encoding size name.now }
{
    match encoding {
        BOOLEAN => of_one_byte(size, Primitive::Bool),
        FLOAT => float(size),
        SIGNED => signed_integer(size, name),
        SIGNED_CHAR => of_one_byte(size, Primitive::I8),
        UNSIGNED => unsigned_integer(size, name),
        UNSIGNED_CHAR if size == 1 => Some(Primitive::U8),
        UNSIGNED_CHAR | UTF => character(size, name),
        _ => None,
    }
}

/// The primitive of constants that are its encoding and its size.
fn by_numbers(encoding: Option<u128>, size: Option<u128>, name: &[u8]) -> Option<Primitive>
    ensures { result ≡ by_numbers encoding size name.now }
{
    primitive(encoding?, size?, name)
}

/// The primitive that a base type is, by its first DW_AT_encoding and DW_AT_byte_size, and by its
/// name, the whole joined text. The rule that it breaks is 40 where one of the two is missing, and 42
/// where there is no such primitive. Takes no memory.
pub fn base_type(
    encoding: Option<Attr<'_>>,
    size: Option<Attr<'_>>,
    name: &[u8],
) -> Result<Primitive, u8>
    ensures { result ≡ base_type (option_map val_of encoding.entry) (option_map val_of size.entry) name.now }
{
    let (Some(encoding), Some(size)) = (encoding, size) else {
        return Err(rule::MISSING);
    };
    match by_numbers(natural(encoding), natural(size), name) {
        Some(prim) => Ok(prim),
        None => Err(rule::NO_PRIMITIVE),
    }
}

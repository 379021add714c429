//! The numbers that choose variants (DWARF 5, 5.7.10).
ghost use Rattle.std.specs.Prelude.{◌≡◌, ◌<◌, ◌+◌, ◌^◌, ◌*◌, pos, min, IfSome, IfNone, Some, None};
ghost use Rattle.dwarf_abbrev.specs.Values.{val_of};
ghost use Rattle.dwarf_entries.specs.Discriminants.{as_signed, block_number, case_number, data_width, default_first, default_last, is_signed, leaves_none, listed_number, modulo_bytes};
ghost use Rattle.layout_set.specs.Primitives.{prim_bytes};

use byteorder::{ByteOrder, LittleEndian};
use dwarf_abbrev::{Attr, form};
use layout_set::{Primitive, prim_size};

/// The size of a pointer.
const POINTER: u8 = 8;

/// Whether a whole number of the type may be negative.
fn is_signed(prim: Primitive) -> bool
    ensures { result ≡ is_signed prim }
{
    matches!(
        prim,
        Primitive::I8
            | Primitive::I16
            | Primitive::I32
            | Primitive::I64
            | Primitive::I128
            | Primitive::Isize
    )
}

/// How many bytes a constant of the forms data1 to data8 has.
fn data_width(code: u64) -> Option<u8>
    ensures { result ≡ data_width code }
{
    match code {
        form::DATA1 => Some(1),
        form::DATA2 => Some(2),
        form::DATA4 => Some(4),
        form::DATA8 => Some(8),
        _ => None,
    }
}

/// The number that a constant is for a tag with a sign: two's complement of its form's own width,
/// where that has one.
fn as_signed(code: u64, n: u64) -> i128
    ensures { result ≡ as_signed (data_width code) n }
{
    let n = i128::from(n);
    match data_width(code) {
        Some(1) if n >= 0x80 => n - 0x100,
        Some(2) if n >= 0x8000 => n - 0x1_0000,
        Some(4) if n >= 0x8000_0000 => n - 0x1_0000_0000,
        Some(8) if n >= 0x8000_0000_0000_0000 => n - 0x1_0000_0000_0000_0000,
        _ => n,
    }
}

/// 2^(8 * size), where the type has so many bytes; None where it has 16.
fn modulus(prim: Primitive) -> Option<i128>
    ensures some { IfSome result (λ m. m ≡ pos (2 ^ (8 * prim_bytes 8 prim))) }
    ensures none { IfNone result (prim_bytes 8 prim ≡ 16) }
{
    match prim_size(POINTER, prim) {
        0 => Some(1),
        1 => Some(0x100),
        2 => Some(0x1_0000),
        4 => Some(0x1_0000_0000),
        8 => Some(0x1_0000_0000_0000_0000),
        _ => None,
    }
}

/// A number modulo 2^(8 * size), where the type has so many bytes.
fn modulo_bytes(prim: Primitive, number: i128) -> u128
    ensures { result ≡ modulo_bytes (prim_bytes 8 prim) number }
{
    match modulus(prim) {
        Some(m) => number.rem_euclid(m).unsigned_abs(),
        None if number >= 0 => number.unsigned_abs(),
        None => u128::MAX - (number.unsigned_abs() - 1),
    }
}

/// The same of a number of 128 bits without a sign.
fn modulo_wide(prim: Primitive, number: u128) -> u128
    ensures { result ≡ modulo_bytes (prim_bytes 8 prim) (pos number) }
{
    match modulus(prim) {
        Some(m) => number % m.unsigned_abs(),
        None => number,
    }
}

/// The number in a block, where the type has as many bytes.
fn block_number(prim: Primitive, block: &[u8]) -> Option<u128>
    ensures { result ≡ block_number (prim_bytes 8 prim) block.now }
{
    let size = prim_size(POINTER, prim) as usize;
    if block.len() != size {
        None
    } else if size == 0 {
        Some(0)
    } else {
        Some(LittleEndian::read_uint128(block, size))
    }
}

/// The number that a DW_AT_discr_value lists for a tag of this type, modulo 2^(8 * size); `code` is
/// that of its form. The forms data1 to data8 are two's complement of their own width where the tag
/// has a sign. None for a block that hasn't the tag's size, and for a value that is neither a
/// constant nor a block. Takes no memory.
pub fn listed_number(prim: Primitive, code: u64, value: Attr<'_>) -> Option<u128>
    ensures { result ≡ listed_number (prim_bytes 8 prim) (is_signed prim) code (val_of value.entry) }
{
    match value {
        Attr::Unsigned(n) if is_signed(prim) => Some(modulo_bytes(prim, as_signed(code, n))),
        Attr::Unsigned(n) => Some(modulo_wide(prim, u128::from(n))),
        Attr::Signed(z) => Some(modulo_bytes(prim, i128::from(z))),
        Attr::Wide(n) => Some(modulo_wide(prim, n)),
        Attr::Block(block) => block_number(prim, block),
        _ => None,
    }
}

/// The greatest number of a tag of this type.
fn greatest(prim: Primitive) -> u128
    ensures { result + 1 ≡ 2 ^ (8 * prim_bytes 8 prim) }
{
    match modulus(prim) {
        Some(m) => m.unsigned_abs() - 1,
        None => u128::MAX,
    }
}

/// The first number of the default variant, where this is the last listed one. Takes no memory.
pub fn default_first(prim: Primitive, last: u128) -> u128
    requires fits { last < 2 ^ (8 * prim_bytes 8 prim) }
    ensures { result ≡ default_first (prim_bytes 8 prim) last }
{
    if last == greatest(prim) { 0 } else { last + 1 }
}

/// The last number of the default variant, where this is the first listed one. Takes no memory.
pub fn default_last(prim: Primitive, first: u128) -> u128
    requires fits { first < 2 ^ (8 * prim_bytes 8 prim) }
    ensures { result ≡ default_last (prim_bytes 8 prim) first }
{
    if first == 0 {
        greatest(prim)
    } else {
        first - 1
    }
}

/// Whether the listed numbers, from the first to the last, leave none for the default variant.
/// Takes no memory.
pub fn leaves_none(prim: Primitive, first: u128, last: u128) -> bool
    requires first_fits { first < 2 ^ (8 * prim_bytes 8 prim) }
    requires last_fits { last < 2 ^ (8 * prim_bytes 8 prim) }
    ensures { result ≡ leaves_none (prim_bytes 8 prim) first last }
{
    default_first(prim, last) == first
}

/// 2^(8 * size), where the type has so many bytes, and 2^64 where it has 16.
fn case_modulus(prim: Primitive) -> i128
    ensures { result ≡ pos (2 ^ (8 * min (prim_bytes 8 prim) 8)) }
{
    match prim_size(POINTER, prim) {
        0 => 1,
        1 => 0x100,
        2 => 0x1_0000,
        4 => 0x1_0000_0000,
        _ => 0x1_0000_0000_0000_0000,
    }
}

/// The number of a case of an enumeration of this type, from its DW_AT_const_value: a constant modulo
/// 2^(8 * size), and modulo 2^64 for a type of 16 bytes. 0 for another value. Takes no memory.
pub fn case_number(prim: Primitive, value: Attr<'_>) -> u64
    ensures { result ≡ case_number (prim_bytes 8 prim) (val_of value.entry) }
{
    let modulus = case_modulus(prim);
    let number = match value {
        Attr::Unsigned(n) => u128::from(n) % modulus.unsigned_abs(),
        Attr::Signed(z) => i128::from(z).rem_euclid(modulus).unsigned_abs(),
        Attr::Wide(n) => n % modulus.unsigned_abs(),
        _ => 0,
    };
    number as u64
}

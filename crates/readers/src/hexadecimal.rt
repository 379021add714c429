//! Hexadecimal numbers, each in its one spelling.
ghost use Rattle.std.specs.Prelude.{◌≡◌, ◌↔◌, IsTrue};
ghost use Rattle.readers.specs.Hex.{hex_of, SpellsHex, wide_hex_of, SpellsWideHex, is_lower_digit, are_lower_digits, is_hex_word, IsHexNumber, narrow};

use crate::digits::are_digits;

/// The number that the word spells, by its digits, which are then compared with those of the number.
fn parse_hex(word: &[u8]) -> Option<u128>
    ensures { SpellsWideHex word.now result }
{
    let Some(digits) = word.strip_prefix(b"0x".as_slice()) else {
        return None;
    };
    let Ok(text) = str::from_utf8(digits) else {
        return None;
    };
    let Ok(n) = u128::from_str_radix(text, 16) else {
        return None;
    };
    if are_digits(digits, n, 16) {
        Some(n)
    } else {
        None
    }
}

/// The number of at most 64 bits.
fn narrow(n: Option<u128>) -> Option<u64>
    ensures { result ≡ narrow n }
{
    match n {
        Some(n) if n < 1 << 64 => Some(n as u64),
        _ => None,
    }
}

/// The number below 2^64 that the word spells: `0x` and lower-case digits without leading zeros.
/// None exactly where there is no such number. Takes no memory.
pub fn read_hex(word: &[u8]) -> Option<u64>
    ensures spelled { SpellsHex word.now result }
    ensures exact { result ≡ hex_of word.now }
{
    narrow(parse_hex(word))
}

/// The same of numbers below 2^128.
pub fn read_wide_hex(word: &[u8]) -> Option<u128>
    ensures spelled { SpellsWideHex word.now result }
    ensures exact { result ≡ wide_hex_of word.now }
{
    parse_hex(word)
}

/// Whether the byte is a hexadecimal digit in lower case.
fn is_lower_digit(c: u8) -> bool
    ensures { result ≡ is_lower_digit c }
{
    matches!(c, b'0'..=b'9' | b'a'..=b'f')
}

/// Whether all bytes are hexadecimal digits in lower case.
#[tactic(auto, using(rv_io::proofs::Steps::drop_step))]
fn are_lower_digits(digits: &[u8]) -> bool
    ensures { result ≡ are_lower_digits digits.now }
{
    for c in digits {
        if !is_lower_digit(*c) {
            return false;
        }
    }
    true
}

/// Whether the word is `0x` and one or more digits in lower case, of which the first is `0` only where it stands alone.
fn has_hex_digits(word: &[u8]) -> bool
    ensures { result ≡ is_hex_word word.now }
{
    let Some(digits) = word.strip_prefix(b"0x".as_slice()) else {
        return false;
    };
    !digits.is_empty() && (digits.len() == 1 || digits[0] != b'0') && are_lower_digits(digits)
}

/// Whether the word spells a number of any size, as `read_hex` wants it. Takes no memory.
pub fn is_hex_word(word: &[u8]) -> bool
    ensures spelled { IsTrue result ↔ IsHexNumber word.now }
    ensures exact { result ≡ is_hex_word word.now }
{
    has_hex_digits(word)
}

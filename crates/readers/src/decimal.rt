//! Decimal numbers, each in its one spelling. Nothing here takes memory.
ghost use Rattle.readers.specs.Decimal.{SpellsDecimal, SpellsSigned};

use crate::digits::are_digits;

/// The number below 2^128 that the word spells: its decimal digits without leading zeros.
/// None exactly where there is no such number.
pub fn read_decimal(word: &[u8]) -> Option<u128>
    ensures { SpellsDecimal word.now result }
{
    let Ok(text) = str::from_utf8(word) else {
        return None;
    };
    let Ok(n) = u128::from_str_radix(text, 10) else {
        return None;
    };
    if are_digits(word, n, 10) {
        Some(n)
    } else {
        None
    }
}

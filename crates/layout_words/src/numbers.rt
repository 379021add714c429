//! The items of lines that are one word.
ghost use Rattle.std.specs.Prelude.{◌≡◌, ◌≤◌};
ghost use Rattle.layout_words.specs.Spellings.{number_of, address_of, reference_of, word_of};
ghost use Rattle.layout_words.specs.Steps.{Read};

use crate::cursor::Stop;
use crate::kinds::primitive_of;
use layout_set::TypeRef;
use names::{NameErr, Word};
use readers::{read_decimal, read_hex};
use std::alloc::Global;

/// The number of at most `bits` bits that the word spells.
pub fn number_of(word: &[u8], bits: u32) -> Option<u128>
    requires { bits ≤ 128 }
    ensures { result ≡ number_of bits word.now }
{
    let n = read_decimal(word)?;
    if bits < 128 && n >> bits != 0 {
        return None;
    }
    Some(n)
}

/// A number of 8 bits.
pub(crate) fn u8_of(word: &[u8]) -> Option<u8>
    ensures { result ≡ number_of 8 word.now }
{
    let n = number_of(word, 8)?;
    Some(n as u8)
}

pub fn u32_of(word: &[u8]) -> Option<u32>
    ensures { result ≡ number_of 32 word.now }
{
    let n = number_of(word, 32)?;
    Some(n as u32)
}

pub(crate) fn u64_of(word: &[u8]) -> Option<u64>
    ensures { result ≡ number_of 64 word.now }
{
    let n = number_of(word, 64)?;
    Some(n as u64)
}

/// An address, or `none`.
pub fn address_of(word: &[u8]) -> Option<Option<u64>>
    ensures { result ≡ address_of word.now }
{
    if word == b"none".as_slice() {
        return Some(None);
    }
    let address = read_hex(word)?;
    Some(Some(address))
}

/// A primitive by its name, or `#` and the number of a type.
pub(crate) fn reference_of(word: &[u8]) -> Option<TypeRef>
    ensures { result ≡ reference_of word.now }
{
    match word.strip_prefix(b"#".as_slice()) {
        Some(digits) => {
            let number = u32_of(digits)?;
            Some(TypeRef::User(number))
        }
        None => {
            let primitive = primitive_of(word)?;
            Some(TypeRef::Prim(primitive))
        }
    }
}

/// A word of the names' grammar.
pub fn word_of(alloc: Global, word: &[u8]) -> Result<Word, Stop>
    ensures { Read (word_of word.now) result }
{
    match Word::new(alloc, word) {
        Ok(word) => Ok(word),
        Err(NameErr::BadName { .. }) => Err(Stop::Unfit),
        Err(NameErr::Memory) => Err(Stop::Memory),
    }
}

//! Words, of which names are made.
ghost use Rattle.std.specs.Prelude.{◌≡◌, ◌-◌, ◌||◌, suc, nat_lt, if◌then◌else◌, true, false, Some, None, Ok, Err, IfOk};
ghost use Rattle.names.specs.Words.{is_between, is_digit, is_letter, wide_lead, lead_of, IsWord};
ghost use Rattle.names.specs.Reading.{if_some};
ghost use Rattle.names.specs.Scan.{StepsOver, WordEnd};

use rv_io::Memory;
use std::alloc::Global;
use std::marker::Model;

/// What follows the first byte of a character: so many bytes, the next of them from `low` to `high`.
#[derive(Clone, Copy)]
pub(crate) struct Lead {
    pub(crate) count: u32,
    pub(crate) low: u8,
    pub(crate) high: u8,
}

/// How far a word was read: whether its first character is still to come, how many bytes it may still have, and what is
/// left of a character.
#[derive(Clone, Copy)]
pub(crate) struct Scan {
    first: bool,
    room: u32,
    count: u32,
    low: u8,
    high: u8,
}

/// A word of 1 to 255 bytes of UTF-8, that begins with a letter, `_` or a character past ASCII, and goes on with these
/// and digits.
#[derive(Debug, Drop)]
pub struct Word {
    bytes: Vec<u8>,
}

impl Model for Word {
    ghost use Rattle.std.specs.Prelude.{List, ℕ};
    ghost use Rattle.names.specs.Words.{IsWord};

    ghost Value = { List ℕ };

    ghost view = { λ w. w.bytes.items };

    ghost invariant = { λ w. IsWord w.bytes.items };
}

impl Word {
    /// The word of these bytes. Takes no memory.
    pub(crate) fn from_checked(bytes: Vec<u8>) -> Word
        requires { IsWord bytes.items }
        ensures { result ≡ bytes.items }
    {
        Word { bytes }
    }

    /// The bytes. Takes no memory.
    pub fn as_bytes(&self) -> &[u8]
        ensures bytes { result.now ≡ self.now }
        ensures word { IsWord self.now }
    {
        self.bytes.as_slice()
    }

    /// A copy of the word.
    pub fn copy(&self, alloc: Global) -> Result<Word, Memory>
        ensures { IfOk result (λ word. word ≡ self.now) }
    {
        Ok(Word {
            bytes: Vec::from_slice(alloc, self.bytes.as_slice())?,
        })
    }
}

/// Whether the byte is from `low` to `high`, both included.
fn is_between(low: u8, high: u8, c: u8) -> bool
    ensures { result ≡ is_between low high c }
{
    low <= c && c <= high
}

/// Whether the byte is an ASCII digit.
pub(crate) fn is_digit(c: u8) -> bool
    ensures { result ≡ is_digit c }
{
    is_between(b'0', b'9', c)
}

/// Whether the byte is an ASCII letter or `_`.
fn is_letter(c: u8) -> bool
    ensures { result ≡ is_letter c }
{
    is_between(b'A', b'Z', c) || is_between(b'a', b'z', c) || c == b'_'
}

/// What follows the first byte of a character past ASCII.
fn wide_lead(c: u8) -> Option<Lead>
    ensures { result ≡ wide_lead c }
{
    if is_between(194, 223, c) {
        Some(Lead {
            count: 1,
            low: 128,
            high: 191,
        })
    } else if c == 224 {
        Some(Lead {
            count: 2,
            low: 160,
            high: 191,
        })
    } else if c == 237 {
        Some(Lead {
            count: 2,
            low: 128,
            high: 159,
        })
    } else if is_between(225, 239, c) {
        Some(Lead {
            count: 2,
            low: 128,
            high: 191,
        })
    } else if c == 240 {
        Some(Lead {
            count: 3,
            low: 144,
            high: 191,
        })
    } else if is_between(241, 243, c) {
        Some(Lead {
            count: 3,
            low: 128,
            high: 191,
        })
    } else if c == 244 {
        Some(Lead {
            count: 3,
            low: 128,
            high: 143,
        })
    } else {
        None
    }
}

/// What follows the first byte of a character of a word, whose first character is no digit.
fn lead_of(first: bool, c: u8) -> Option<Lead>
    ensures { result ≡ lead_of first c }
{
    if is_letter(c) || (is_digit(c) && !first) {
        return Some(Lead {
            count: 0,
            low: 128,
            high: 191,
        });
    }
    wide_lead(c)
}

/// Whether a word may begin with the byte.
pub(crate) fn starts_word_byte(c: u8) -> bool
    ensures { result ≡ if_some (lead_of true c) (λ _. true) false }
{
    lead_of(true, c).is_some()
}

/// How far the word is read after this byte, or `None` where it ends before it.
fn step(scan: Scan, c: u8) -> Option<Scan>
    ensures { StepsOver scan c result }
{
    if scan.count > 0 {
        if !is_between(scan.low, scan.high, c) {
            return None;
        }
        return Some(Scan {
            first: scan.first,
            room: scan.room,
            count: scan.count - 1,
            low: 128,
            high: 191,
        });
    }
    match lead_of(scan.first, c) {
        None => None,
        Some(next) => begun(scan, next),
    }
}

/// The state after a character's first byte, if there is room for the character.
fn begun(scan: Scan, next: Lead) -> Option<Scan>
    ensures { result ≡ if nat_lt next.count scan.room
        then Some (record { first = false; room = scan.room - suc next.count; count = next.count; low = next.low; high = next.high })
        else None }
{
    if next.count >= scan.room {
        return None;
    }
    Some(Scan {
        first: false,
        room: scan.room - next.count - 1,
        count: next.count,
        low: next.low,
        high: next.high,
    })
}

/// The length of the word at the front of a text, or where the text stops being one.
pub(crate) fn word_end(text: &[u8]) -> Result<usize, usize>
    ensures { WordEnd text.now result }
{
    let mut scan = Scan {
        first: true,
        room: 255,
        count: 0,
        low: 0,
        high: 0,
    };
    for (at, c) in text.iter().enumerate() {
        match step(scan, *c) {
            Some(next) => scan = next,
            None => return end_at(scan, at),
        }
    }
    end_at(scan, text.len())
}

/// The length of what was read, if a word ends there.
fn end_at(scan: Scan, at: usize) -> Result<usize, usize>
    ensures { result ≡ if scan.first || nat_lt 0 scan.count then Err at else Ok at }
{
    if scan.first || scan.count > 0 {
        return Err(at);
    }
    Ok(at)
}

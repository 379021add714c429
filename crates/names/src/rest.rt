//! The bytes of a text that are left to read.
ghost use Rattle.std.specs.Prelude.{◌≡◌, ◌^◌, ◌-◌, true, length, if◌then◌else◌};
ghost use Rattle.names.specs.Reading.{got, bad, begins, tail, literal, word, number, digits_after, starts_word, starts_digit};
ghost use Rattle.names.specs.Steps.{Stepped, digit_at, grown};

use crate::word::{Word, is_digit, starts_word_byte, word_end};
use rv_io::Memory;
use std::alloc::{AllocError, Global};
use std::marker::Model;

/// Why a step of reading stopped.
#[derive(Clone, Copy, Debug, PartialEq, Eq)]
pub enum StepErr {
    /// No name goes on like this.
    Bad,
    /// Memory has run out.
    Memory,
}

impl From<Memory> for StepErr {
    ghost use Rattle.names.specs.declared.rest.StepErr.{StepErr};
    ghost use Rattle.std.specs.Prelude.{◌≡◌};

    ghost from_gives = { λ _ s. s ≡ StepErr.Memory };

    /// Out of memory, as a stop.
    fn from(_e: Memory) -> StepErr {
        StepErr::Memory
    }
}

impl From<AllocError> for StepErr {
    ghost use Rattle.names.specs.declared.rest.StepErr.{StepErr};
    ghost use Rattle.std.specs.Prelude.{◌≡◌};

    ghost from_gives = { λ _ s. s ≡ StepErr.Memory };

    /// Out of memory, as a stop.
    fn from(_e: AllocError) -> StepErr {
        StepErr::Memory
    }
}

/// The bytes that are left.
#[derive(Drop)]
pub struct Rest<'a> {
    left: &'a [u8],
}

impl<'a> Model for Rest<'a> {
    ghost use Rattle.std.specs.Prelude.{List, ℕ};

    ghost Value = { List ℕ };

    ghost view = { λ r. r.left.now };
}

impl<'a> Rest<'a> {
    /// All of a text.
    pub fn new(text: &'a [u8]) -> Rest<'a>
        ensures { result ≡ text.now }
    {
        Rest { left: text }
    }

    /// How many bytes are left.
    pub fn len(&self) -> usize
        ensures { result ≡ length self.now }
    {
        self.left.len()
    }

    /// The bytes that are left.
    pub fn left(&self) -> &'a [u8]
        ensures { result.now ≡ self.now }
    {
        self.left
    }
}

impl Rest<'_> {
    /// Whether this byte is next.
    pub fn begins(&self, byte: u8) -> bool
        ensures { result ≡ begins byte self.now }
    {
        match self.left {
            [] => false,
            [c, ..] => *c == byte,
        }
    }

    /// Whether a word may begin with the next byte.
    pub fn starts_word(&self) -> bool
        ensures { result ≡ starts_word self.now }
    {
        match self.left {
            [] => false,
            [c, ..] => starts_word_byte(*c),
        }
    }

    /// Whether a digit is next.
    pub fn starts_digit(&self) -> bool
        ensures { result ≡ starts_digit self.now }
    {
        match self.left {
            [] => false,
            [c, ..] => is_digit(*c),
        }
    }

    /// Skips the next byte.
    pub fn skip(&mut self)
        ensures { self.new ≡ tail self.old }
    {
        if let [_, rest @ ..] = self.left {
            self.left = rest;
        }
    }

    /// Reads just these bytes.
    pub fn literal(&mut self, bytes: &[u8]) -> Result<(), StepErr>
        ensures { Stepped ((literal bytes.now).read self.old) result self.new }
    {
        for byte in bytes {
            if !self.begins(*byte) {
                return Err(StepErr::Bad);
            }
            self.skip();
        }
        Ok(())
    }

    /// Reads a word, as far as it goes.
    pub fn word(&mut self, alloc: Global) -> Result<Word, StepErr>
        ensures { Stepped (word.read self.old) result self.new }
    {
        let text = self.left;
        match word_end(text) {
            Ok(end) => {
                self.left = &text[end..];
                Ok(Word::from_checked(Vec::from_slice(alloc, &text[..end])?))
            }
            Err(at) => {
                self.left = &text[at..];
                Err(StepErr::Bad)
            }
        }
    }

    /// Reads a decimal without needless zeros, as far as it goes and is at most `most`.
    pub fn number(&mut self, zeroed: bool, most: u128) -> Result<u128, StepErr>
        ensures { Stepped ((number zeroed most).read self.old) result self.new }
    {
        match self.digit() {
            None => Err(StepErr::Bad),
            Some(0) => self.zero(zeroed),
            Some(digit) => {
                self.skip();
                Ok(self.digits_after(u128::from(digit), most))
            }
        }
    }

    /// Reads a decimal of 32 bits.
    pub fn number_u32(&mut self) -> Result<u32, StepErr>
        ensures { Stepped ((number true (2 ^ 32 - 1)).read self.old) result self.new }
    {
        let number = self.number(true, u128::from(u32::MAX))?;
        Ok(number as u32)
    }

    /// Reads a decimal of 64 bits.
    pub fn number_u64(&mut self) -> Result<u64, StepErr>
        ensures { Stepped ((number true (2 ^ 64 - 1)).read self.old) result self.new }
    {
        let number = self.number(true, u128::from(u64::MAX))?;
        Ok(number as u64)
    }

    /// Skips a zero, where the number may be 0.
    fn zero(&mut self, zeroed: bool) -> Result<u128, StepErr>
        ensures { Stepped (if zeroed then got 0 (tail self.old) else bad self.old) result self.new }
    {
        if !zeroed {
            return Err(StepErr::Bad);
        }
        self.skip();
        Ok(0)
    }

    /// The value of the next byte, if it is a digit.
    fn digit(&self) -> Option<u8>
        ensures { result ≡ digit_at self.now }
    {
        match self.left {
            [c, ..] if is_digit(*c) => Some(*c - b'0'),
            _ => None,
        }
    }

    /// The number so far with the digits that still fit.
    fn digits_after(&mut self, mut number: u128, most: u128) -> u128
        ensures { digits_after most number self.old ≡ got result self.new }
    {
        while let Some(next) = self.grown(number, most) {
            self.skip();
            number = next;
        }
        number
    }

    /// The number with the next digit, if there is one and it fits.
    fn grown(&self, number: u128, most: u128) -> Option<u128>
        ensures { result ≡ grown most number self.now }
    {
        match self.left {
            [c, ..] if is_digit(*c) => {
                let next = number.checked_mul(10)?.checked_add(u128::from(*c - b'0'))?;
                (next <= most).then_some(next)
            }
            _ => None,
        }
    }
}

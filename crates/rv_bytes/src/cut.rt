//! A slice with a place.
ghost use Rattle.std.specs.Prelude.{◌≡◌, ◌<◌, ◌≤◌, ◌+◌, length, drop, IfSome, IfOk, IfErr, OnErr};
ghost use Rattle.rv_bytes.specs.Numbers.{bytes, IsLowByte};
ghost use Rattle.rv_bytes.specs.NumberReaders.{read_bytes};
ghost use Rattle.rv_bytes.specs.Reads.{Takes, IsRefused};
ghost use Rattle.rv_bytes.specs.Results.{GivesBy};

use crate::err::CutErr;
use std::marker::Model;

/// The bytes from a place on. A place counts the bytes in front of it.
#[derive(Debug, Drop)]
pub struct Cut<'a> {
    total: usize,
    rest: &'a [u8],
}

impl<'a> Model for Cut<'a> {
    ghost use Rattle.std.specs.Prelude.{◌≤◌, ◌-◌, length};
    ghost use Rattle.rv_bytes.specs.Places.{Place};

    ghost Value = { Place };

    ghost view = { λ c. record { at = c.total - length c.rest.now; rest = c.rest.now } };

    ghost invariant = { λ c. length c.rest.now ≤ c.total };
}

impl<'a> Cut<'a> {
    /// All the bytes; the first is at place 0. Takes no memory.
    pub fn new(bytes: &'a [u8]) -> Cut<'a>
        ensures { result ≡ record { at = 0; rest = bytes.now } }
    {
        Cut {
            total: bytes.len(),
            rest: bytes,
        }
    }

    /// The bytes from place `at` on, with their places. Takes no memory.
    pub fn from_place(bytes: &'a [u8], at: usize) -> Cut<'a>
        requires { at ≤ length bytes.now }
        ensures { result ≡ record { at = at; rest = drop at bytes.now } }
    {
        Cut {
            total: bytes.len(),
            rest: &bytes[at..],
        }
    }

    /// A cut of its own at the same place, so that what is read from one can be read again from the
    /// other. Takes no memory.
    pub fn copy(&self) -> Cut<'a>
        ensures { result ≡ self.now }
    {
        Cut {
            total: self.total,
            rest: self.rest,
        }
    }

    /// The place of the next byte. Takes no memory.
    pub fn at(&self) -> usize
        ensures { result ≡ self.now.at }
    {
        self.total - self.rest.len()
    }

    /// How many bytes are left. Takes no memory.
    pub fn left(&self) -> usize
        ensures { result ≡ length self.now.rest }
    {
        self.rest.len()
    }

    /// The bytes that are left. Takes no memory.
    pub(crate) fn rest(&self) -> &'a [u8]
        ensures { result.now ≡ self.now.rest }
    {
        self.rest
    }

    /// The next byte, where it is below 128. Takes no memory.
    pub(crate) fn low_byte(&self) -> Option<u8>
        ensures { IfSome result (IsLowByte self.now.rest) }
    {
        let (b, _) = self.rest.split_first()?;
        if *b < 128 { Some(*b) } else { None }
    }

    /// Moves past the next byte. Takes no memory.
    pub(crate) fn skip_byte(&mut self)
        requires { 0 < length self.old.rest }
        ensures { self.new ≡ record { at = self.old.at + 1; rest = drop 1 self.old.rest } }
    {
        self.rest = &self.rest[1..];
    }

    /// Reads the next `n` bytes. Refused as `Short` where fewer are left. Takes no memory.
    pub fn take(&mut self, n: usize) -> Result<&'a [u8], CutErr>
        // What is read are the next bytes, and the place is just past them.
        ensures taken { IfOk result (λ v. Takes (bytes n) self.old self.new v.now) }

        // A refusal has its cause, and leaves the place as it was.
        ensures refused { IfErr result (IsRefused (bytes n) self.old) }
        ensures same { OnErr result (self.new ≡ self.old) }

        // The reader of the form gives the same, for the proofs of callers.
        ensures reads { GivesBy (λ v. v.now) (read_bytes n self.old.at self.old.rest) result self.new }
    {
        if n <= self.rest.len() {
            let (front, back) = self.rest.split_at(n);
            self.rest = back;
            Ok(front)
        } else {
            Err(CutErr::Short { at: self.at() })
        }
    }
}

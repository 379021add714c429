//! LEB128 numbers (DWARF 5, 7.6).
ghost use Rattle.std.specs.Prelude.{◌≡◌, ◌≤◌, ◌<◌, ◌^◌, ◌∷◌, [], length, IfOk, IfErr, OnErr};
ghost use Rattle.rv_bytes.specs.Numbers.{zero_or, AreGroups, low_bits, signed_bits, uleb, sleb};
ghost use Rattle.rv_bytes.specs.NumberReaders.{groups_in, read_groups, read_uleb, read_sleb};
ghost use Rattle.rv_bytes.specs.Reads.{Takes, IsRefused};
ghost use Rattle.rv_bytes.specs.Results.{Gives, GivesBy, Counts};

use crate::cut::Cut;
use crate::err::CutErr;

/// Why groups of seven bits are no number.
#[derive(Clone, Copy, Debug, PartialEq, Eq)]
enum LebErr {
    /// The bytes end inside it.
    Short,
    /// It has an eleventh byte, or its tenth may not stand there.
    Wide,
}

impl<'a> Cut<'a> {
    /// Reads an unsigned LEB128 number (DWARF 5, 7.6). Groups that add nothing are taken, up to ten
    /// bytes.
    ///
    /// Refused as `Wide` where ten bytes are there and the number has more, or bits past the 64th;
    /// as `Short` where fewer are there and it has no end. Takes no memory.
    pub fn uleb(&mut self) -> Result<u64, CutErr>
        // What is read stands at the place, and the place is just past it.
        ensures taken { IfOk result (Takes uleb self.old self.new) }

        // A refusal has its cause, and leaves the place as it was.
        ensures refused { IfErr result (IsRefused uleb self.old) }
        ensures same { OnErr result (self.new ≡ self.old) }

        // The reader of the form gives the same, for the proofs of callers.
        ensures reads { Gives (read_uleb self.old.at self.old.rest) result self.new }
    {
        match self.low_byte() {
            Some(b) => {
                self.skip_byte();
                Ok(u64::from(b))
            }
            None => self.long_uleb(),
        }
    }

    /// Reads a signed LEB128 number (DWARF 5, 7.6). Groups that add nothing are taken, up to ten
    /// bytes.
    ///
    /// Refused as `Wide` where ten bytes are there and the number has more, or bits past the 64th;
    /// as `Short` where fewer are there and it has no end. Takes no memory.
    pub fn sleb(&mut self) -> Result<i64, CutErr>
        // What is read stands at the place, and the place is just past it.
        ensures taken { IfOk result (Takes sleb self.old self.new) }

        // A refusal has its cause, and leaves the place as it was.
        ensures refused { IfErr result (IsRefused sleb self.old) }
        ensures same { OnErr result (self.new ≡ self.old) }

        // The reader of the form gives the same, for the proofs of callers.
        ensures reads { Gives (read_sleb self.old.at self.old.rest) result self.new }
    {
        match self.low_byte() {
            Some(b) => {
                self.skip_byte();
                Ok(signed_group(b))
            }
            None => self.long_sleb(),
        }
    }

    /// An unsigned number of any count of groups.
    fn long_uleb(&mut self) -> Result<u64, CutErr>
        ensures taken { IfOk result (Takes uleb self.old self.new) }
        ensures refused { IfErr result (IsRefused uleb self.old) }
        ensures same { OnErr result (self.new ≡ self.old) }
        ensures reads { Gives (read_uleb self.old.at self.old.rest) result self.new }
    {
        match self.groups(1) {
            Ok(bytes) => Ok(low_bits(bytes) as u64),
            Err(e) => Err(e),
        }
    }

    /// A signed number of any count of groups.
    fn long_sleb(&mut self) -> Result<i64, CutErr>
        ensures taken { IfOk result (Takes sleb self.old self.new) }
        ensures refused { IfErr result (IsRefused sleb self.old) }
        ensures same { OnErr result (self.new ≡ self.old) }
        ensures reads { Gives (read_sleb self.old.at self.old.rest) result self.new }
    {
        match self.groups(127) {
            Ok(bytes) => Ok(signed_bits(bytes)),
            Err(e) => Err(e),
        }
    }

    /// The bytes of a number whose tenth byte, if there is one, is 0 or `high`.
    fn groups(&mut self, high: u8) -> Result<&'a [u8], CutErr>
        ensures same { OnErr result (self.new ≡ self.old) }
        ensures reads { GivesBy (λ v. v.now) (read_groups (zero_or high) self.old.at self.old.rest) result self.new }
    {
        match count(self.rest(), 9, high) {
            Ok(len) => self.take(len),
            Err(LebErr::Short) => Err(CutErr::Short { at: self.at() }),
            Err(LebErr::Wide) => Err(CutErr::Wide { at: self.at() }),
        }
    }
}

/// The signed number of one group.
fn signed_group(b: u8) -> i64
    requires { b < 128 }
    ensures { result ≡ signed_bits (b ∷ []) }
{
    if b < 64 {
        i64::from(b)
    } else {
        i64::from(b) - 128
    }
}

/// How many bytes the number has, of at most `more` and one; the last that may come is 0 or `high`.
#[tactic(auto, unfolding(crate::specs::NumberReaders::groups_in))]
fn count(bytes: &[u8], more: usize, high: u8) -> Result<usize, LebErr>
    requires { more < 10 }
    ensures counts { Counts (groups_in (zero_or high) more bytes.now) result }
    ensures within { IfOk result (λ len. len ≤ length bytes.now) }
{
    let [b, rest @ ..] = bytes else {
        return Err(LebErr::Short);
    };
    if more == 0 {
        if *b < 128 && (*b == 0 || *b == high) {
            Ok(1)
        } else {
            Err(LebErr::Wide)
        }
    } else if *b < 128 {
        Ok(1)
    } else {
        Ok(1 + count(rest, more - 1, high)?)
    }
}

/// The number in the low seven bits of each byte, the first byte lowest.
fn low_bits(bytes: &[u8]) -> u128
    requires { length bytes.now ≤ 10 }
    ensures value { result ≡ low_bits bytes.now }
    ensures fits { result < 128 ^ length bytes.now }
{
    match bytes {
        [] => 0,
        [b, rest @ ..] => u128::from(*b % 128) + 128 * low_bits(rest),
    }
}

/// The number in the low seven bits of each byte, as two's complement: bit 6 of the last byte is
/// its sign.
fn signed_bits(bytes: &[u8]) -> i64
    requires { AreGroups (zero_or 127) bytes.now }
    ensures { result ≡ signed_bits bytes.now }
{
    let n = low_bits(bytes);
    if bytes[bytes.len() - 1] < 64 {
        n as i64
    } else {
        -1 - ((1u128 << (7 * bytes.len())) - 1 - n) as i64
    }
}

//! Texts that end at a zero byte.
ghost use Rattle.std.specs.Prelude.{◌≡◌, IfOk, IfErr, OnErr};
ghost use Rattle.rv_bytes.specs.Numbers.{zero_text, text};
ghost use Rattle.rv_bytes.specs.NumberReaders.{first_zero, read_zero_text, read_text};
ghost use Rattle.rv_bytes.specs.Reads.{Takes, IsRefused};
ghost use Rattle.rv_bytes.specs.Results.{GivesBy};

use crate::cut::Cut;
use crate::err::CutErr;
use memchr::memchr;
use readers::is_text;

/// How many bytes a text may have.
const LONGEST: usize = 65_535;

impl<'a> Cut<'a> {
    /// Reads the bytes before the next zero byte, and the zero byte, which is not handed out (DWARF
    /// 5, 7.5.5, "string").
    ///
    /// Refused as `NoZero` where no zero byte follows. Takes no memory.
    pub fn zero_text(&mut self) -> Result<&'a [u8], CutErr>
        // What is read stands at the place, and the place is just past its zero byte.
        ensures taken { IfOk result (λ v. Takes zero_text self.old self.new v.now) }

        // A refusal has its cause, and leaves the place as it was.
        ensures refused { IfErr result (IsRefused zero_text self.old) }
        ensures same { OnErr result (self.new ≡ self.old) }

        // The reader of the form gives the same, for the proofs of callers.
        ensures reads { GivesBy (λ v. v.now) (read_zero_text self.old.at self.old.rest) result self.new }
    {
        let Some(len) = first_zero(self.rest()) else {
            return Err(CutErr::NoZero { at: self.at() });
        };
        let bytes = self.take(len + 1)?;
        Ok(&bytes[..len])
    }

    /// Reads a text, which is UTF-8 of at most 65,535 bytes, and the zero byte that ends it and is not
    /// handed out.
    ///
    /// Refused as `NoZero` where no zero byte follows, and as `NoText` where the bytes before it are no
    /// text. Takes no memory.
    pub fn text(&mut self) -> Result<&'a [u8], CutErr>
        // What is read stands at the place, and the place is just past its zero byte.
        ensures taken { IfOk result (λ v. Takes text self.old self.new v.now) }

        // A refusal has its cause, and leaves the place as it was.
        ensures refused { IfErr result (IsRefused text self.old) }
        ensures same { OnErr result (self.new ≡ self.old) }

        // The reader of the form gives the same, for the proofs of callers.
        ensures reads { GivesBy (λ v. v.now) (read_text self.old.at self.old.rest) result self.new }
    {
        let mut cut = self.copy();
        match cut.checked_text() {
            Ok(bytes) => {
                *self = cut;
                Ok(bytes)
            }
            Err(e) => Err(e),
        }
    }

    /// The bytes before the next zero byte where they are a text; moves past the zero byte, whatever they are.
    fn checked_text(&mut self) -> Result<&'a [u8], CutErr>
        ensures { GivesBy (λ v. v.now) (read_text self.old.at self.old.rest) result self.new }
    {
        let at = self.at();
        let bytes = self.zero_text()?;
        if bytes.len() <= LONGEST && is_text(bytes) {
            return Ok(bytes);
        }
        Err(CutErr::NoText { at })
    }
}

/// How many bytes stand before the first zero byte.
#[tactic(auto, using(crate::proofs::ZeroTexts::first_is))]
fn first_zero(bytes: &[u8]) -> Option<usize>
    ensures { result ≡ first_zero bytes.now }
{
    memchr(0, bytes)
}

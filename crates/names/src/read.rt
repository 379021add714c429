//! Words, read from whole texts, and the error of a text that is read.
ghost use Rattle.std.specs.Prelude.{◌≡◌, ◌-◌, ◌≤◌, ◌^◌, min};
ghost use Rattle.names.specs.declared.error.NameErr.TheVariants.{BadName};
ghost use Rattle.names.specs.Claims.{IsRead, WordSpells};

use crate::error::NameErr;
use crate::rest::{Rest, StepErr};
use crate::word::Word;
use std::alloc::Global;

impl Word {
    /// The word of these bytes. `BadName` comes exactly where they are no word; its `at` is the length of their longest
    /// prefix with which some word begins.
    pub fn new(alloc: Global, bytes: &[u8]) -> Result<Word, NameErr>
        ensures { IsRead WordSpells bytes.now result }
    {
        let mut rest = Rest::new(bytes);
        match rest.word(alloc) {
            Ok(word) => {
                if rest.len() == 0 {
                    Ok(word)
                } else {
                    Err(bad_name(bytes.len(), rest.len()))
                }
            }
            Err(StepErr::Bad) => Err(bad_name(bytes.len(), rest.len())),
            Err(StepErr::Memory) => Err(NameErr::Memory),
        }
    }
}

/// The error at the place where so many bytes are left.
pub fn bad_name(len: usize, left: usize) -> NameErr
    requires { left ≤ len }
    ensures { result ≡ BadName (min (len - left) (2 ^ 32 - 1)) }
{
    NameErr::BadName {
        at: u32::try_from(len - left).unwrap_or(u32::MAX),
    }
}

//! Names in the spelling of Rust, read from whole texts.
ghost use Rattle.std.specs.Prelude.{◌≡◌, ◌-◌, ◌≤◌, ◌^◌, min};
ghost use Rattle.names.specs.Claims.{IsRead, IsOfOne};
ghost use Rattle.rust_names.specs.RustText.{RustSpells};

use crate::rust_reader::whole;
use names::{Name, NameErr, Rest, StepErr, bad_name};
use std::alloc::Global;

/// The name with this Rust text. `BadName` comes exactly where no name has the text; its `at` is the length of the longest
/// prefix of the text with which some name's text begins.
pub fn read_rust(alloc: Global, text: &[u8]) -> Result<Name, NameErr>
    ensures { IsRead RustSpells text.now result }
{
    let mut rest = Rest::new(text);
    match whole(&mut rest, alloc, 64) {
        Ok(name) => {
            if rest.len() == 0 {
                Ok(name)
            } else {
                Err(bad_name(text.len(), rest.len()))
            }
        }
        Err(StepErr::Bad) => Err(bad_name(text.len(), rest.len())),
        Err(StepErr::Memory) => Err(NameErr::Memory),
    }
}

/// A text is the Rust text of at most one proper name.
pub fn one_rust_name()
    ensures { IsOfOne RustSpells }
{}

//! The names that texts of records are.
ghost use Rattle.std.specs.Prelude.{◌≡◌, IfOk};
ghost use Rattle.cv_type_defs.specs.Texts.{is_word, name_of_text, proper_name};

use cv_names::read_cv;
use names::{Name, NameErr, Word};
use rv_io::{Memory, Text};
use std::alloc::Global;

/// How many bytes the text of a name has at most that isn't raw.
const LONGEST: usize = 1000;

/// The name that has the text in CodeView's spelling, if there is one.
#[tactic(auto, using(crate::proofs::ProperNames::some_name, crate::proofs::ProperNames::no_name))]
fn proper_name(alloc: Global, text: &[u8]) -> Result<Option<Name>, Memory>
    ensures { IfOk result (λ name. name ≡ proper_name text.now) }
{
    match read_cv(alloc, text) {
        Ok(name) => Ok(Some(name)),
        Err(NameErr::BadName { .. }) => Ok(None),
        Err(NameErr::Memory) => Err(Memory),
    }
}

/// The name of a text: the proper one of a text of at most 1,000 bytes, where there is one, and else the
/// text itself.
pub fn name_of_text(alloc: Global, text: &[u8]) -> Result<Name, Memory>
    ensures { IfOk result (λ name. name ≡ name_of_text text.now) }
{
    if text.len() <= LONGEST {
        if let Some(name) = proper_name(alloc, text)? {
            return Ok(name);
        }
    }
    Ok(Name::Raw(Text::from_bytes(alloc, text)?))
}

/// Whether the text is a word. Takes memory for the text.
#[tactic(auto, using(crate::proofs::ProperNames::some_word, crate::proofs::ProperNames::no_word))]
pub fn is_word(alloc: Global, text: &[u8]) -> Result<bool, Memory>
    ensures { IfOk result (λ test. test ≡ is_word text.now) }
{
    match Word::new(alloc, text) {
        Ok(_) => Ok(true),
        Err(NameErr::BadName { .. }) => Ok(false),
        Err(NameErr::Memory) => Err(Memory),
    }
}

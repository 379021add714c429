//! The names that texts are.
ghost use Rattle.std.specs.Prelude.{◌≡◌, IfOk};
ghost use Rattle.dwarf_entries.specs.Names.{name_of_text, proper_name, stands_alone, word_in};

use names::{Name, NameErr, Word};
use rust_names::read_rust;
use rv_io::{Memory, Text};
use std::alloc::Global;

/// How many bytes the text of a name has at most that isn't raw.
const LONGEST: usize = 1000;

/// The proper name that has the text, if there is one.
#[tactic(auto, using(crate::proofs::ProperNames::some_name, crate::proofs::ProperNames::no_name))]
pub fn proper_name(alloc: Global, text: &[u8]) -> Result<Option<Name>, Memory>
    ensures { IfOk result (λ name. name ≡ proper_name text.now) }
{
    match read_rust(alloc, text) {
        Ok(name) => Ok(Some(name)),
        Err(NameErr::BadName { .. }) => Ok(None),
        Err(NameErr::Memory) => Err(Memory),
    }
}

/// Whether the text of this proper name is the whole name of an entry, whatever is around it: it is
/// any but a path of one segment. Takes no memory.
pub fn stands_alone(name: &Name) -> bool
    ensures { result ≡ stands_alone name.now }
{
    match name {
        Name::Path(segs) => segs.as_slice().len() != 1,
        _ => true,
    }
}

/// The name of a whole text: the proper one of a text of at most 1,000 bytes, where there is one,
/// and else the raw text.
pub fn name_of_text(alloc: Global, text: &[u8]) -> Result<Name, Memory>
    ensures { IfOk result (λ name. name ≡ name_of_text text.now) }
{
    if text.len() <= LONGEST {
        if let Some(name) = proper_name(alloc, text)? {
            return Ok(name);
        }
    }
    Ok(Name::Raw(Text::from_bytes(alloc, text)?))
}

/// The word that the text is, if it is one.
#[tactic(auto, using(crate::proofs::ProperNames::some_word, crate::proofs::ProperNames::no_word))]
pub fn word_in(alloc: Global, text: &[u8]) -> Result<Option<Word>, Memory>
    ensures { IfOk result (λ word. word ≡ word_in text.now) }
{
    match Word::new(alloc, text) {
        Ok(word) => Ok(Some(word)),
        Err(NameErr::BadName { .. }) => Ok(None),
        Err(NameErr::Memory) => Err(Memory),
    }
}

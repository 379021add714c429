//! The words that names of fields, variants, cases and params are.
ghost use Rattle.std.specs.Prelude.{◌≡◌, IfOk, IsTrue};
ghost use Rattle.dwarf_entries.specs.Names.{is_word, word_in};
ghost use Rattle.dwarf_entries.specs.Texts.{own_text};
ghost use Rattle.dwarf_names.specs.Words.{blank, word_or_blank};

use crate::own::own_text;
use dwarf_dies::Die;
use dwarf_entries::word_in;
use names::{NameErr, Word};
use rv_io::Memory;
use std::alloc::Global;

/// The word that the text of an entry's own name is, if it is one.
pub fn word_of(alloc: Global, die: &Die<'_>) -> Result<Option<Word>, Memory>
    ensures { IfOk result (λ word. word ≡ word_in (own_text die.now.info die.now.die)) }
{
    word_in(alloc, own_text(die))
}

/// The word `_`, which stands where there is no word.
pub fn blank(alloc: Global) -> Result<Word, Memory>
    ensures { IfOk result (λ word. word ≡ blank) }
{
    match Word::new(alloc, b"_") {
        Ok(word) => Ok(word),
        Err(NameErr::BadName { .. }) => unreachable!(),
        Err(NameErr::Memory) => Err(Memory),
    }
}

/// The word that the text of an entry's own name is; `_` where the text is no word. [`word_of`] says whether
/// it is one.
#[tactic(auto, using(crate::proofs::WordTexts::word_is))]
pub fn own_word(alloc: Global, die: &Die<'_>) -> Result<Word, Memory>
    ensures word { IfOk result (λ word. word ≡ word_or_blank (own_text die.now.info die.now.die)) }

    // A text that is a word is that word.
    ensures text { IsTrue (is_word (own_text die.now.info die.now.die)) → IfOk result (λ word. word ≡ own_text die.now.info die.now.die) }
{
    match word_of(alloc, die)? {
        Some(word) => Ok(word),
        None => blank(alloc),
    }
}

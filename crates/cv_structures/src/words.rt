//! Names that must be words.
ghost use Rattle.std.specs.Prelude.{◌≡◌, IfOk, true};
ghost use Rattle.cv_type_defs.specs.Texts.{is_word};
ghost use Rattle.cv_type_defs.specs.TypeRefs.{word_rule};

use cv_fields::{is_word, rule};
use names::{NameErr, Word};
use rv_io::Memory;
use std::alloc::Global;

/// The rule that a name breaks which is no word. Takes memory for the name.
pub fn word_rule(alloc: Global, name: &[u8]) -> Result<Option<u8>, Memory>
    ensures { IfOk result (λ rule. rule ≡ word_rule name.now) }
{
    if is_word(alloc, name)? {
        Ok(None)
    } else {
        Ok(Some(rule::NO_WORD))
    }
}

/// The word that a text is. Takes memory for it.
pub fn word_of(alloc: Global, text: &[u8]) -> Result<Word, Memory>
    requires { is_word text.now ≡ true }
    ensures { IfOk result (λ word. word ≡ text.now) }
{
    match Word::new(alloc, text) {
        Ok(word) => Ok(word),
        Err(NameErr::BadName { .. }) => unreachable!(),
        Err(NameErr::Memory) => Err(Memory),
    }
}

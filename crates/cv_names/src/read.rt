//! Names in the spelling of CodeView, read from whole texts.
ghost use Rattle.std.specs.Prelude.{List, ℕ};
ghost use Rattle.names.specs.declared.name.Name.{Name};
ghost use Rattle.names.specs.Claims.{IsRead, IsOfOne};
ghost use Rattle.names.specs.Names.{IsProper};
ghost use Rattle.cv_names.specs.CvText.{CvSpells, cv_text};

use crate::cv_reader::cv_whole;
use names::{Name, NameErr, Rest, StepErr, bad_name};
use std::alloc::Global;

/// The name of which this is a CodeView text: its CodeView spelling, or that with some of its paths as `enum2$<X>`.
/// `BadName` comes exactly where the text is no name's; its `at` is the length of the longest prefix of the text with which
/// some name's text begins.
pub fn read_cv(alloc: Global, text: &[u8]) -> Result<Name, NameErr>
    ensures { IsRead CvSpells text.now result }
{
    let mut rest = Rest::new(text);
    match cv_whole(&mut rest, alloc, 64) {
        Ok(name) => {
            if rest.len() == 0 {
                Ok(name)
            } else {
                Err(bad_name(text.len(), rest.len()))
            }
        }
        Err(StepErr::Bad) => Err(bad_name(text.len(), rest.len())),
        Err(StepErr::Memory) => Err(NameErr::Memory),
    }
}

/// A text is a CodeView text of at most one name.
pub fn one_cv_name()
    ensures { IsOfOne CvSpells }
{}

/// A name is proper exactly where some text is one of its CodeView spellings, and its CodeView text is one of them.
pub fn proper_names_have_cv_spellings()
    ensures spelled { (n : Name) → IsProper n → CvSpells n (cv_text n) }
    ensures proper { (n : Name) (t : List ℕ) → CvSpells n t → IsProper n }
{}

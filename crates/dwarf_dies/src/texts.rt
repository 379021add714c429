//! The texts of attributes (DWARF 5, 7.5.5, the class string).
ghost use Rattle.std.specs.Prelude.{◌≡◌, MatchResult};
ghost use Rattle.dwarf_entries.specs.TextResults.{bytes_of, IsText, IsNoText};
ghost use Rattle.dwarf_entries.specs.Texts.{text_found};
ghost use Rattle.dwarf_dies.specs.Attributes.{attribute_kept};

use crate::dies::Dies;
use dwarf_entries::{Bases, Sections, TextErr, text_of};
use dwarf_units::EntryAttribute;

impl<'a> Dies<'a> {
    /// The sections that entries lead to. Takes no memory.
    pub fn sections(&self) -> Sections<'a>
        ensures { bytes_of result ≡ self.now.sections }
    {
        self.sections
    }

    /// The text of an attribute of the class string, where its unit has these bases. Takes no memory.
    pub fn text<'b>(
        &'b self,
        bases: Bases,
        attribute: EntryAttribute<'b>,
    ) -> Result<&'b [u8], TextErr>
        // What is found is this text, or the error says why it is none.
        ensures { MatchResult result (λ t. IsText (text_found self.now.sections bases (attribute_kept attribute.entry)) t.now) (IsNoText (text_found self.now.sections bases (attribute_kept attribute.entry))) }
    {
        text_of(&self.sections, bases, attribute.offset, attribute.value)
    }
}

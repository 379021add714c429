//! The texts of entries' own names (DWARF 5, 2.15 and 7.5.5, the class string).
ghost use Rattle.std.specs.Prelude.{◌≡◌};
ghost use Rattle.dwarf_entries.specs.Texts.{own_text};

use dwarf_dies::Die;
use dwarf_entries::at;

/// The text of an entry's first name; empty where it has none, and where what is there isn't a text. Takes no
/// memory.
pub fn own_text<'a>(die: &Die<'a>) -> &'a [u8]
    ensures { result.now ≡ own_text die.now.info die.now.die }
{
    let Some(attribute) = die.attribute(at::NAME) else {
        return &[];
    };
    match die.text(attribute) {
        Ok(text) => text,
        Err(_) => &[],
    }
}

//! The names in a value are words.
ghost use Rattle.std.specs.Prelude.{map, option_map};
ghost use Rattle.rust_value.specs.Named.{HasWords, AreWords, names_of, part_names, together, content_names};

use crate::value::{Part, Val};
use rv_io::Boxed;

/// Each name in the value is a word. It is called for this clause alone, where the names of a value are to lie as bytes in
/// another place. Takes no memory.
#[cycle(naming)]
pub fn names_are_words(val: &Val)
    ensures { HasWords val.now }
{
    match val {
        Val::Fields(parts) => part_names_are_words(parts.as_slice()),
        Val::Variant(name, parts) => {
            let _ = name.as_bytes();
            part_names_are_words(parts.as_slice());
        }
        Val::Seq(_, shown) => all_names_are_words(shown.as_slice()),
        Val::Pointer(_, _, content) | Val::Slice(_, _, _, content) => content_names_are_words(
            content,
        ),
        _ => {}
    }
}

/// Each name of the fields and in their values is a word.
#[cycle(naming)]
fn part_names_are_words(parts: &[Part])
    ensures { AreWords (together (map part_names parts.now)) }
{
    for part in parts {
        let _ = part.name.as_bytes();
        names_are_words(&part.val);
    }
}

/// Each name in the values is a word.
#[cycle(naming)]
fn all_names_are_words(values: &[Val])
    ensures { AreWords (together (map names_of values.now)) }
{
    for value in values {
        names_are_words(value);
    }
}

/// Each name in the content is a word.
#[cycle(naming)]
fn content_names_are_words(content: &Option<Boxed<Val>>)
    ensures { AreWords (content_names (option_map names_of content.now)) }
{
    if let Some(to) = content {
        names_are_words(to.get());
    }
}

//! Which names are words, and which are joined with those around them.
ghost use Rattle.std.specs.Prelude.{◌≡◌};
ghost use Rattle.dwarf_entries.specs.NameRoles.{is_param, role_of};
ghost use Rattle.dwarf_scopes.specs.Roles.{role_meant, word_or_joined, word_or_plain};

use crate::passed_over::is_in_function;
use crate::structures::{is_in_structure, is_inner_structure, is_of_variant};
use crate::tags::is_structure;
use dwarf_dies::Die;
use dwarf_entries::Tag;

/// What the name of an entry is.
#[derive(Clone, Copy, Debug, PartialEq, Eq)]
pub enum Role {
    /// A word.
    Word,
    /// With those around it.
    Joined,
    /// A text that says nothing.
    Plain,
}

/// Whether the parent of an entry is a structure that isn't in a structure: as a template parameter it
/// is a param of a struct or an enum. Takes no memory.
pub fn is_param(die: &Die<'_>) -> bool
    ensures { result ≡ is_param die.now.die }
{
    match die.parent() {
        Some(up) => is_structure(up.what()) && !is_inner_structure(&up),
        None => false,
    }
}

/// A word, or a text that says nothing.
fn word_or_plain(is_word: bool) -> Role
    ensures { role_meant result ≡ word_or_plain is_word }
{
    if is_word { Role::Word } else { Role::Plain }
}

/// A word, or a text with those around it.
fn word_or_joined(is_word: bool) -> Role
    ensures { role_meant result ≡ word_or_joined is_word }
{
    if is_word { Role::Word } else { Role::Joined }
}

/// What the name of an entry is. Takes no memory.
pub fn role_of(die: &Die<'_>) -> Role
    ensures { role_meant result ≡ role_of die.now.info die.now.die }
{
    match die.what() {
        Some(Tag::Member) => word_or_plain(is_in_structure(die) || is_of_variant(die)),
        Some(Tag::TemplateTypeParameter) => word_or_plain(is_param(die)),
        Some(Tag::Enumerator) => Role::Word,
        Some(Tag::Variable) => word_or_joined(is_in_function(die)),
        Some(Tag::FormalParameter) => Role::Word,
        _ => Role::Joined,
    }
}

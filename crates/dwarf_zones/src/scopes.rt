//! What is around a variable: its scope, and its function (DWARF 5, 3.3 and 3.5).
ghost use Rattle.std.specs.Prelude.{◌≡◌, option_map};
ghost use Rattle.dwarf_entries.specs.Tags.{passes};
ghost use Rattle.dwarf_dies.specs.Handles.{beside};
ghost use Rattle.dwarf_zones.specs.Scopes.{frame_around, function_of, is_scope, scope_of};

use crate::frames::frame_of;
use dwarf_dies::Die;
use dwarf_entries::Tag;
use dwarf_scopes::tags::is_function;
use expr_bytes::Frame;

/// Whether entries of the tag are scopes.
fn is_scope(what: Option<Tag>) -> bool
    ensures { result ≡ passes is_scope what }
{
    matches!(what, Some(Tag::Subprogram | Tag::LexicalBlock))
}

/// The nearest scope around an entry: a function, or a block in one. Goes up at most 256 steps. Takes no
/// memory.
pub fn scope_of<'a>(die: &Die<'a>) -> Option<Die<'a>>
    ensures { result ≡ option_map (beside die.now) (scope_of die.now.die) }
{
    let mut above = die.parent();
    while let Some(up) = above {
        if is_scope(up.what()) {
            return Some(up);
        }
        above = up.parent();
    }
    None
}

/// The nearest function around an entry. Goes up at most 256 steps. Takes no memory.
pub fn function_of<'a>(die: &Die<'a>) -> Option<Die<'a>>
    ensures { result ≡ option_map (beside die.now) (function_of die.now.die) }
{
    let mut above = die.parent();
    while let Some(up) = above {
        if is_function(up.what()) {
            return Some(up);
        }
        above = up.parent();
    }
    None
}

/// The frame base from which the locations of a variable count: that of the function around it. Takes no
/// memory.
pub fn frame_around(die: &Die<'_>) -> Frame
    ensures { result ≡ frame_around die.now.die }
{
    match function_of(die) {
        Some(function) => frame_of(&function),
        None => Frame::Unknown,
    }
}

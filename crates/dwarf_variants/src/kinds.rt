//! The children of an entry that are of one kind (DWARF 5, 5.7.6 and 5.7.10).
ghost use Rattle.std.specs.Prelude.{◌≡◌, map};
ghost use Rattle.dwarf_entries.specs.Enums.{variants_in};
ghost use Rattle.dwarf_entries.specs.Structures.{children_with, is_member, is_part};
ghost use Rattle.dwarf_entries.specs.Tags.{passes};
ghost use Rattle.dwarf_dies.specs.Handles.{beside};
ghost use Rattle.dwarf_variants.specs.Kinds.{test_of};

use dwarf_dies::{Children, Die};
use dwarf_entries::Tag;
use dwarf_scopes::tags::{is_member, is_part, is_variant};
use std::marker::Model;

/// What is sought among the children of an entry.
#[derive(Clone, Copy, Debug, PartialEq, Eq)]
pub enum Kind {
    Member,
    Part,
    Variant,
}

/// Whether a tag is of the kind.
fn is_of(kind: Kind, what: Option<Tag>) -> bool
    ensures { result ≡ passes (test_of kind) what }
{
    match kind {
        Kind::Member => is_member(what),
        Kind::Part => is_part(what),
        Kind::Variant => is_variant(what),
    }
}

/// Children of one kind that are still to come. Contracts see their list.
#[derive(Drop)]
pub struct Below<'a> {
    kind: Kind,
    children: Children<'a>,
}

impl<'a> Model for Below<'a> {
    ghost use Rattle.std.specs.Prelude.{List};
    ghost use Rattle.dwarf_dies.specs.Handles.{DieIn};
    ghost use Rattle.dwarf_variants.specs.Kinds.{of_kind};

    ghost Value = { List DieIn };

    ghost view = { λ b. of_kind b.kind b.children };
}

impl<'a> Iterator for Below<'a> {
    ghost use Rattle.std.specs.Iterator.{YieldsFirst, item_count};

    type Item = Die<'a>;

    ghost next_gives = { YieldsFirst (λ s. s) };

    ghost remaining = { item_count (λ s. s) };

    fn next(&mut self) -> Option<Die<'a>> {
        while let Some(child) = self.children.next() {
            if is_of(self.kind, child.what()) {
                return Some(child);
            }
        }
        None
    }
}

/// The members below an entry, in order. Takes no memory.
pub fn members_in<'a>(die: &Die<'a>) -> Below<'a>
    ensures { result ≡ map (beside die.now) (children_with is_member die.now.info die.now.die) }
{
    Below {
        kind: Kind::Member,
        children: die.children(),
    }
}

/// The variant parts below an entry, in order. Takes no memory.
pub fn parts_in<'a>(die: &Die<'a>) -> Below<'a>
    ensures { result ≡ map (beside die.now) (children_with is_part die.now.info die.now.die) }
{
    Below {
        kind: Kind::Part,
        children: die.children(),
    }
}

/// The variants of a part, in order. Takes no memory.
pub fn variants_in<'a>(part: &Die<'a>) -> Below<'a>
    ensures { result ≡ map (beside part.now) (variants_in part.now.info part.now.die) }
{
    Below {
        kind: Kind::Variant,
        children: part.children(),
    }
}

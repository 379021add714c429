//! Marks of the simple pointers to which links lead.
ghost use Rattle.std.specs.Prelude.{◌≡◌, ◌<◌, length, slice_index_or, false, map};
ghost use Rattle.cv_links.specs.Seen.{target_seen};
ghost use Rattle.cv_uses.specs.Marks.{marked, no_marks, with_mark, with_marks};
ghost use Rattle.cv_type_defs.specs.Uses.{field_targets};
ghost use Rattle.cv_type_defs.specs.Fields.{field_target};

use cv_fields::Fields;
use cv_links::{Links, Target};
use std::marker::Model;

/// The first 64-bit pointer to a simple type, that to 0.
const POINTERS: u32 = 0x600;

/// How many simple types may be marked: all primitives are below.
pub const SIMPLE_TYPES: usize = 128;

/// For each simple type below 128, whether a link leads to the 64-bit pointer to it. Contracts see the list.
#[derive(Drop)]
pub struct Marks {
    marks: [bool; 128],
}

impl Model for Marks {
    ghost use Rattle.std.specs.Prelude.{List, Bool};

    ghost Value = { List Bool };

    ghost view = { λ m. m.marks };
}

impl Marks {
    /// No marks.
    pub fn new() -> Marks
        ensures { result ≡ no_marks }
    {
        Marks {
            marks: [false; 128],
        }
    }

    /// Marks the simple pointer to which a link leads, if it leads to one.
    pub fn mark(&mut self, to: Target)
        ensures { self.new ≡ with_mark self.old (target_seen to) }
    {
        let Target::Simple(index) = to else {
            return;
        };
        if index < POINTERS {
            return;
        }
        let at = (index - POINTERS) as usize;
        if at < SIMPLE_TYPES {
            self.marks[at] = true;
        }
    }

    /// Marks those to which the types of fields lead.
    pub fn mark_fields(&mut self, links: &Links<'_>, fields: Fields<'_>)
        ensures { self.new ≡ with_marks self.old (map (field_target links.now) fields.entry) }
    {
        for field in fields {
            self.mark(field.target(links));
        }
    }

    /// Whether the pointer to a simple type is marked.
    pub fn is_marked(&self, simple: u32) -> bool
        ensures { result ≡ marked self.now simple }
    {
        self.marks.get(simple as usize).copied().unwrap_or(false)
    }
}

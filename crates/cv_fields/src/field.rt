//! Fields: the LF_MEMBERs of field lists.
ghost use Rattle.std.specs.Prelude.{◌≡◌};
ghost use Rattle.cv_type_defs.specs.Fields.{field_target, is_named};
ghost use Rattle.cv_fields.specs.Members.{field_in};
ghost use Rattle.cv_links.specs.Seen.{target_seen};

use cv_links::{Links, Placed, Target};
use cv_type_records::Member;
use rv_io::Text;
use std::marker::Model;

/// A field, and the place of the record in which it is. Contracts see both.
#[derive(Clone, Drop)]
pub struct Field<'a> {
    list: usize,
    ty: u32,
    offset: i128,
    name: &'a Text,
}

impl<'a> Model for Field<'a> {
    ghost use Rattle.cv_type_defs.specs.Fields.{CvField};

    ghost Value = { CvField };

    ghost view = { λ f. record { list = f.list; ty = f.ty; offset = f.offset; name = f.name.now } };
}

/// The field that a member is, if it is one. Takes no memory.
pub fn field_in<'a>(placed: &Placed<'a>) -> Option<Field<'a>>
    ensures { result ≡ field_in placed.now }
{
    match placed.member() {
        Member::Field {
            ty,
            offset,
            name,
            ..
        } => Some(Field {
            list: placed.list(),
            ty: *ty,
            offset: *offset,
            name,
        }),
        _ => None,
    }
}

impl<'a> Field<'a> {
    /// The place of the record in which it is: its type leads below that. Takes no memory.
    pub fn list(&self) -> usize
        ensures { result ≡ self.now.list }
    {
        self.list
    }

    /// The index of its type. Takes no memory.
    pub fn ty(&self) -> u32
        ensures { result ≡ self.now.ty }
    {
        self.ty
    }

    /// Where it is, in bytes from the start of the type. Takes no memory.
    pub fn offset(&self) -> i128
        ensures { result ≡ self.now.offset }
    {
        self.offset
    }

    /// Its name. Takes no memory.
    pub fn name(&self) -> &'a [u8]
        ensures { result.now ≡ self.now.name }
    {
        self.name.as_bytes()
    }

    /// Whether it has this name. Takes no memory.
    pub fn is_named(&self, name: &[u8]) -> bool
        ensures { result ≡ is_named name.now self.now }
    {
        self.name() == name
    }

    /// Where its type leads, below the record in which it is. Takes no memory.
    pub fn target(&self, links: &Links<'_>) -> Target
        ensures { target_seen result ≡ field_target links.now self.now }
    {
        links.target(self.list, self.ty)
    }
}

//! The fields of a structure or a union, in order.
ghost use Rattle.std.specs.Prelude.{◌≡◌};
ghost use Rattle.cv_type_defs.specs.FieldLists.{members_of};
ghost use Rattle.cv_type_defs.specs.Fields.{fields_in};

use crate::field::{Field, field_in};
use cv_links::{Links, Members};
use std::marker::Model;

/// Fields that are still to come. Contracts see their list.
#[derive(Drop)]
pub struct Fields<'a> {
    members: Members<'a>,
}

impl<'a> Model for Fields<'a> {
    ghost use Rattle.std.specs.Prelude.{List};
    ghost use Rattle.cv_type_defs.specs.Fields.{CvField};
    ghost use Rattle.cv_fields.specs.Members.{fields_among};

    ghost Value = { List CvField };

    ghost view = { λ f. fields_among f.members };
}

impl<'a> Iterator for Fields<'a> {
    ghost use Rattle.std.specs.Iterator.{YieldsFirst, item_count};

    type Item = Field<'a>;

    ghost next_gives = { YieldsFirst (λ s. s) };

    ghost remaining = { item_count (λ s. s) };

    fn next(&mut self) -> Option<Field<'a>> {
        while let Some(placed) = self.members.next() {
            if let Some(field) = field_in(&placed) {
                return Some(field);
            }
        }
        None
    }
}

/// The fields of the complete record at a place, which has this index as its field list. Takes no memory.
pub fn fields_of<'a>(links: &Links<'a>, place: usize, fields: u32) -> Fields<'a>
    ensures { result ≡ fields_in (members_of links.now place fields) }
{
    Fields {
        members: links.members(place, fields),
    }
}

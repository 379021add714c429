//! LF_ENUMERATEs, the cases of C-like enums.
ghost use Rattle.std.specs.Prelude.{◌≡◌};
ghost use Rattle.cv_type_defs.specs.Enumerations.{enumerators_in};
ghost use Rattle.cv_type_defs.specs.FieldLists.{members_of};
ghost use Rattle.cv_structures.specs.Enumerators.{enumerator_in};

use cv_links::{Links, Members, Placed};
use cv_type_records::Member;
use rv_io::Text;
use std::marker::Model;

/// An LF_ENUMERATE. Contracts see its name and its number.
#[derive(Drop)]
pub struct Enumerator<'a> {
    name: &'a Text,
    number: i128,
}

impl<'a> Model for Enumerator<'a> {
    ghost use Rattle.cv_type_defs.specs.Enumerations.{Enumerator as Seen};

    ghost Value = { Seen };

    ghost view = { λ e. record { name = e.name.now; number = e.number } };
}

impl<'a> Enumerator<'a> {
    /// Its name. Takes no memory.
    pub fn name(&self) -> &'a [u8]
        ensures { result.now ≡ self.now.name }
    {
        self.name.as_bytes()
    }

    /// Its number. Takes no memory.
    pub fn number(&self) -> i128
        ensures { result ≡ self.now.number }
    {
        self.number
    }
}

/// The enumerator that a member is, if it is one.
fn enumerator_in<'a>(placed: &Placed<'a>) -> Option<Enumerator<'a>>
    ensures { result ≡ enumerator_in placed.now }
{
    match placed.member() {
        Member::Enumerate { number, name, .. } => Some(Enumerator {
            name,
            number: *number,
        }),
        _ => None,
    }
}

/// Enumerators that are still to come. Contracts see their list.
#[derive(Drop)]
pub struct Enumerators<'a> {
    members: Members<'a>,
}

impl<'a> Model for Enumerators<'a> {
    ghost use Rattle.std.specs.Prelude.{List};
    ghost use Rattle.cv_type_defs.specs.Enumerations.{Enumerator as Seen};
    ghost use Rattle.cv_structures.specs.Enumerators.{enumerators_among};

    ghost Value = { List Seen };

    ghost view = { λ e. enumerators_among e.members };
}

impl<'a> Iterator for Enumerators<'a> {
    ghost use Rattle.std.specs.Iterator.{YieldsFirst, item_count};

    type Item = Enumerator<'a>;

    ghost next_gives = { YieldsFirst (λ s. s) };

    ghost remaining = { item_count (λ s. s) };

    fn next(&mut self) -> Option<Enumerator<'a>> {
        while let Some(placed) = self.members.next() {
            if let Some(enumerator) = enumerator_in(&placed) {
                return Some(enumerator);
            }
        }
        None
    }
}

/// The enumerators of the complete record at a place, which has this index as its field list. Takes no
/// memory.
pub fn enumerators_of<'a>(links: &Links<'a>, place: usize, fields: u32) -> Enumerators<'a>
    ensures { result ≡ enumerators_in (members_of links.now place fields) }
{
    Enumerators {
        members: links.members(place, fields),
    }
}

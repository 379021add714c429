//! The members of field lists: LF_FIELDLIST, which goes on where LF_INDEX leads.
ghost use Rattle.std.specs.Prelude.{◌≡◌, ◌<◌, ◌∷◌, IfOk};
ghost use Rattle.cv_type_defs.specs.FieldLists.{members_below, members_of};
ghost use Rattle.cv_links.specs.Lists.{begun, continued, from_list, index_in, list_at, placed, still};

use crate::ends::{BAD_INDEX, FIRST_INDEX};
use crate::links::Links;
use crate::records::kind_at;
use cv_type_records::{Member, TypeKind, TypeRec};
use std::marker::Model;

/// The rule of a record of a kind that may not be there.
const WRONG_KIND: u8 = 55;

/// A member, and the place of the record in which it is. Contracts see both.
#[derive(Drop)]
pub struct Placed<'a> {
    list: usize,
    member: &'a Member,
}

impl<'a> Model for Placed<'a> {
    ghost use Rattle.cv_type_defs.specs.FieldLists.{Placed as Seen};
    ghost use Rattle.cv_links.specs.Lists.{placed};

    ghost Value = { Seen };

    ghost view = { λ p. placed p.list p.member.now };
}

impl<'a> Placed<'a> {
    /// The place of the record in which it is: its links lead below that. Takes no memory.
    pub fn list(&self) -> usize
        ensures { result ≡ self.now.list }
    {
        self.list
    }

    /// What it says. Takes no memory.
    pub fn member(&self) -> &'a Member
        ensures { result.now ≡ self.now.member }
    {
        self.member
    }
}

/// Members of a record that are still to come, and the place of the record.
#[derive(Clone, Copy)]
pub struct Part<'a> {
    list: usize,
    members: &'a [Member],
}

/// The members of the record at a place.
fn listed(records: &[TypeRec], place: usize) -> Result<Part<'_>, u8>
    ensures list { begun records.now result ≡ list_at records.now place }
    ensures place { IfOk result (λ part. part.list ≡ place) }
{
    match kind_at(records, place) {
        Some(TypeKind::FieldList { members }) => Ok(Part {
            list: place,
            members: members.as_slice(),
        }),
        _ => Err(WRONG_KIND),
    }
}

/// The members where an index leads that must be below that of the record at this place; or the rule
/// that it breaks.
fn part_below(records: &[TypeRec], place: usize, index: u32) -> Result<Part<'_>, u8>
    ensures members { begun records.now result ≡ members_below records.now place index }
    ensures below { IfOk result (λ part. part.list < place) }
{
    if index < FIRST_INDEX {
        return Err(WRONG_KIND);
    }
    let at = (index - FIRST_INDEX) as usize;
    if at < place {
        listed(records, at)
    } else {
        Err(BAD_INDEX)
    }
}

/// The index of LF_INDEX.
fn index_in(member: &Member) -> Option<u32>
    ensures { result ≡ index_in member.now }
{
    match member {
        Member::Index { fields, .. } => Some(*fields),
        _ => None,
    }
}

/// Where members go on: the index of the first LF_INDEX.
fn continued(members: &[Member]) -> Option<u32>
    ensures { result ≡ continued members.now }
{
    for member in members {
        if let Some(index) = index_in(member) {
            return Some(index);
        }
    }
    None
}

/// The members after a member, whose record is at this place.
fn after<'a>(
    records: &'a [TypeRec],
    list: usize,
    member: &Member,
    rest: &'a [Member],
) -> Option<Part<'a>>
    ensures { (from_list records.now list (member.now ∷ rest.now)).items ≡ placed list member.now ∷ still records.now result }
{
    match index_in(member) {
        Some(index) => part_below(records, list, index).ok(),
        None => Some(Part {
            list,
            members: rest,
        }),
    }
}

/// Members that are still to come. Contracts see their list.
#[derive(Drop)]
pub struct Members<'a> {
    records: &'a [TypeRec],
    part: Option<Part<'a>>,
}

impl<'a> Model for Members<'a> {
    ghost use Rattle.std.specs.Prelude.{List};
    ghost use Rattle.cv_type_defs.specs.FieldLists.{Placed as Seen};
    ghost use Rattle.cv_links.specs.Lists.{still};

    ghost Value = { List Seen };

    ghost view = { λ m. still m.records.now m.part };
}

impl<'a> Iterator for Members<'a> {
    ghost use Rattle.std.specs.Iterator.{YieldsFirst, item_count};

    type Item = Placed<'a>;

    ghost next_gives = { YieldsFirst (λ s. s) };

    ghost remaining = { item_count (λ s. s) };

    fn next(&mut self) -> Option<Placed<'a>> {
        let part = self.part?;
        let (member, rest) = part.members.split_first()?;
        self.part = after(self.records, part.list, member, rest);
        Some(Placed {
            list: part.list,
            member,
        })
    }
}

/// The first members of a field list; None where it has none.
#[tactic(auto, using(crate::proofs::Chains::started))]
fn first_part(records: &[TypeRec], place: usize, fields: u32) -> Option<Part<'_>>
    ensures { still records.now result ≡ (members_of records.now place fields).items }
{
    if fields == 0 {
        return None;
    }
    part_below(records, place, fields).ok()
}

impl<'a> Links<'a> {
    /// The members of the complete record at a place, which has this index as its field list; 0 is the
    /// empty list. Takes no memory.
    pub fn members(&self, place: usize, fields: u32) -> Members<'a>
        ensures { result ≡ (members_of self.now place fields).items }
    {
        Members {
            records: self.records(),
            part: first_part(self.records(), place, fields),
        }
    }

    /// The rule that the last link of such a field list breaks; None where it has an end. Takes no memory.
    pub fn members_rule(&self, place: usize, fields: u32) -> Option<u8>
        ensures { result ≡ (members_of self.now place fields).rule }
    {
        if fields == 0 {
            return None;
        }
        rule_below(self.records(), place, fields)
    }
}

/// The rule that the last link of a field list breaks.
fn rule_below(records: &[TypeRec], place: usize, fields: u32) -> Option<u8>
    ensures { result ≡ (members_below records.now place fields).rule }
{
    let mut at = place;
    let mut next = Some(fields);
    while let Some(index) = next {
        match part_below(records, at, index) {
            Ok(part) => {
                at = part.list;
                next = continued(part.members);
            }
            Err(rule) => return Some(rule),
        }
    }
    None
}

//! Records with a leaf and a name.
ghost use Rattle.std.specs.Prelude.{◌≡◌};
ghost use Rattle.cv_type_defs.specs.EnumNames.{helper_name, variants_name};
ghost use Rattle.cv_type_defs.specs.Helpers.{called_at, members_of_named, named_at};
ghost use Rattle.cv_type_defs.specs.Records.{Leaf as SeenLeaf, is_same_leaf};
ghost use Rattle.cv_links.specs.Seen.{leaf_seen, target_seen};

use crate::called::{is_helper_of, is_names_of};
use cv_links::{Head, Leaf, Links, Members, Target};
use std::marker::Model;

/// A record with a name, at its place. Contracts see both.
#[derive(Drop)]
pub struct Named<'a> {
    place: usize,
    head: Head<'a>,
}

impl<'a> Model for Named<'a> {
    ghost use Rattle.cv_type_defs.specs.Helpers.{Named as Seen};
    ghost use Rattle.cv_links.specs.Seen.{head_seen};

    ghost Value = { Seen };

    ghost view = { λ n. record { place = n.place; head = head_seen n.head } };
}

/// Whether the leaves are the same.
fn is_same_leaf(one: Leaf, other: Leaf) -> bool
    ensures { result ≡ is_same_leaf (leaf_seen one) (leaf_seen other) }
{
    match (one, other) {
        (Leaf::Structure, Leaf::Structure) => true,
        (Leaf::Union, Leaf::Union) => true,
        (Leaf::Enum, Leaf::Enum) => true,
        _ => false,
    }
}

/// The record of this leaf to which a link leads. Takes no memory.
pub fn named_at<'a>(links: &Links<'a>, leaf: Leaf, to: Target) -> Option<Named<'a>>
    ensures { result ≡ named_at links.now (leaf_seen leaf) (target_seen to) }
{
    let Target::Record(place) = to else {
        return None;
    };
    let head = links.head(place)?;
    if is_same_leaf(leaf, head.leaf) {
        Some(Named { place, head })
    } else {
        None
    }
}

/// The LF_STRUCTURE to which a link leads, where it is the helper of the variant of this number, of the enum
/// that has this name. Takes no memory.
pub fn helper_at<'a>(links: &Links<'a>, name: &[u8], number: u32, to: Target) -> Option<Named<'a>>
    ensures { result ≡ called_at links.now SeenLeaf.Structure (helper_name name.now number) (target_seen to) }
{
    let named = named_at(links, Leaf::Structure, to)?;
    if is_helper_of(named.name(), name, number) {
        Some(named)
    } else {
        None
    }
}

/// The LF_ENUM to which a link leads, where it has the names of the variants of the enum that has this name.
/// Takes no memory.
pub fn names_at<'a>(links: &Links<'a>, name: &[u8], to: Target) -> Option<Named<'a>>
    ensures { result ≡ called_at links.now SeenLeaf.Enum (variants_name name.now) (target_seen to) }
{
    let named = named_at(links, Leaf::Enum, to)?;
    if is_names_of(named.name(), name) {
        Some(named)
    } else {
        None
    }
}

impl<'a> Named<'a> {
    /// The place of the record. Takes no memory.
    pub fn place(&self) -> usize
        ensures { result ≡ self.now.place }
    {
        self.place
    }

    /// Its name. Takes no memory.
    pub fn name(&self) -> &'a [u8]
        ensures { result.now ≡ self.now.head.name }
    {
        self.head.name.as_bytes()
    }

    /// The index of its field list; 0 where it has none. Takes no memory.
    pub fn fields(&self) -> u32
        ensures { result ≡ self.now.head.fields }
    {
        self.head.fields
    }

    /// Its members. Takes no memory.
    pub fn members(&self, links: &Links<'a>) -> Members<'a>
        ensures { result ≡ (members_of_named links.now self.now).items }
    {
        links.members(self.place, self.head.fields)
    }

    /// The rule that the last link of its field list breaks; None where it has an end. Takes no memory.
    pub fn members_rule(&self, links: &Links<'a>) -> Option<u8>
        ensures { result ≡ (members_of_named links.now self.now).rule }
    {
        links.members_rule(self.place, self.head.fields)
    }
}

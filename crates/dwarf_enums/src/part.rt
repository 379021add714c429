//! Variant parts, read once for all their variants (DWARF 5, 5.7.10).
ghost use Rattle.std.specs.Prelude.{◌≡◌};
ghost use Rattle.dwarf_entries.specs.EnumRules.{lacks_room};
ghost use Rattle.dwarf_entries.specs.Enums.{selector_of, tag_in, tag_primitive};
ghost use Rattle.dwarf_enums.specs.Parts.{IsTagOf, leaves_none_in, tag_location_fits};

use crate::tags::tag_primitive;
use dwarf_dies::Die;
use dwarf_links::TypeLinks;
use dwarf_scopes::location_of;
use dwarf_variants::{
    Listed, default_span, has_default, is_listed, leave_none, listed_in, number_in, tag_member,
};
use layout_set::{Primitive, Selector, Tag};
use std::marker::Model;

/// The type of a part's tag, and the first and the last number that its variants list for it.
#[derive(Clone, Copy, Debug, PartialEq, Eq)]
struct TagNumbers {
    prim: Primitive,
    listed: Option<Listed>,
}

/// A variant part, with what chooses its variants. Contracts see the entry.
#[derive(Drop)]
pub struct Part<'a> {
    entry: Die<'a>,
    tag: Option<TagNumbers>,
}

impl<'a> Model for Part<'a> {
    ghost use Rattle.dwarf_dies.specs.Handles.{DieIn};
    ghost use Rattle.dwarf_enums.specs.Parts.{IsTagOf};

    ghost Value = { DieIn };

    ghost view = { λ p. p.entry };

    ghost invariant = { λ p. IsTagOf p.entry p.tag };
}

/// What is kept of a part's tag.
fn tag_numbers(links: &TypeLinks<'_>, part: &Die<'_>) -> Option<TagNumbers>
    requires { part.now.info ≡ links.now }
    ensures { IsTagOf part.now result }
{
    let prim = tag_primitive(links, part)?;
    let listed = listed_in(prim, part);
    Some(TagNumbers { prim, listed })
}

impl<'a> Part<'a> {
    /// Reads what chooses the variants of a part: goes three times over these. Takes no memory.
    pub fn read(links: &TypeLinks<'_>, part: &Die<'a>) -> Part<'a>
        requires { part.now.info ≡ links.now }
        ensures { result ≡ part.now }
    {
        let tag = tag_numbers(links, part);
        Part {
            entry: part.again(),
            tag,
        }
    }

    /// The part's entry. Takes no memory.
    pub fn entry(&self) -> &Die<'a>
        ensures { result.now ≡ self.now }
    {
        &self.entry
    }

    /// The type of the tag, where the part has one and it is a primitive. Takes no memory.
    pub fn primitive(&self) -> Option<Primitive>
        ensures { result ≡ tag_primitive self.now.info self.now.die }
    {
        match self.tag {
            Some(tag) => Some(tag.prim),
            None => None,
        }
    }

    /// The tag of the enum, where its place has 32 bits. Takes no memory.
    pub fn tag(&self) -> Option<Tag>
        requires { tag_location_fits self.now.info self.now.die }
        ensures { result ≡ tag_in self.now.info self.now.die }
    {
        let prim = self.primitive()?;
        let member = tag_member(&self.entry)?;
        let off = location_of(&member) as u32;
        Some(Tag { off, prim })
    }

    /// What chooses a variant of the part. Looks at that variant alone. Takes no memory.
    pub fn selector_of(&self, variant: &Die<'_>) -> Selector
        ensures { result ≡ selector_of self.now.info self.now.die variant.now.die }
    {
        let Some(tag) = self.tag else {
            return Selector::Only;
        };
        if is_listed(variant) {
            Selector::Exact(number_in(tag.prim, variant).unwrap_or(0))
        } else {
            default_span(tag.prim, tag.listed)
        }
    }

    /// Whether the listed numbers leave none for a default variant.
    fn leaves_none(&self) -> bool
        ensures { result ≡ leaves_none_in self.now.info self.now.die (tag_primitive self.now.info self.now.die) }
    {
        match self.tag {
            Some(tag) => leave_none(tag.prim, tag.listed),
            None => false,
        }
    }

    /// Whether there is a default variant, and the listed numbers leave none for it. Takes no memory.
    pub fn lacks_room(&self) -> bool
        ensures { result ≡ lacks_room self.now.info self.now.die }
    {
        has_default(&self.entry) && self.leaves_none()
    }
}

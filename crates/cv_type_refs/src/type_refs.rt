//! The types to which links lead, and the rules that links break.
ghost use Rattle.std.specs.Prelude.{◌≡◌};
ghost use Rattle.cv_type_defs.specs.Links.{Target as Ends};
ghost use Rattle.cv_type_defs.specs.TypeRefs.{type_of, type_rule};
ghost use Rattle.cv_links.specs.Seen.{target_seen};
ghost use Rattle.cv_type_refs.specs.Seen.{type_there};

use crate::info::TypeInfo;
use crate::unit::is_unit;
use cv_links::{Target, is_numbered};
use cv_type_defs::primitive_at;
use layout_set::{Primitive, TypeRef};

/// The first 64-bit pointer to a simple type, that to 0.
const POINTERS: u32 = 0x600;

/// The rule of a link that leads to no type.
pub const WRONG_KIND: u8 = 55;

/// The rule of a link that leads to this, unless it is broken.
fn type_there(ty: Option<TypeRef>) -> Option<u8>
    ensures { result ≡ type_there ty }
{
    match ty {
        Some(_) => None,
        None => Some(WRONG_KIND),
    }
}

impl<'a> TypeInfo<'a> {
    /// The type that a simple type is, if it is one.
    fn simple_type(&self, index: u32) -> Option<TypeRef>
        ensures { result ≡ type_of self.now (Ends.Simple index) }
    {
        if let Some(prim) = primitive_at(index) {
            return Some(TypeRef::Prim(prim));
        }
        if index < POINTERS {
            return None;
        }
        let to = index - POINTERS;
        primitive_at(to)?;
        Some(TypeRef::User(self.pointer_number(to)))
    }

    /// The type that the record at a place is, if it is one.
    fn record_type(&self, place: usize) -> Option<TypeRef>
        ensures { result ≡ type_of self.now (Ends.Record place) }
    {
        let kind = self.links().kind(place)?;
        if is_unit(kind) {
            Some(TypeRef::Prim(Primitive::Unit))
        } else if is_numbered(kind) {
            Some(TypeRef::User(self.number_at(place)))
        } else {
            None
        }
    }

    /// The type to which a link leads, if it leads to one. Takes no memory.
    pub fn type_of(&self, to: Target) -> Option<TypeRef>
        ensures { result ≡ type_of self.now (target_seen to) }
    {
        match to {
            Target::Simple(index) => self.simple_type(index),
            Target::Record(place) => self.record_type(place),
            Target::Broken(_) => None,
        }
    }

    /// The rule that a link to a type breaks: its own, or 55 where it leads to no type. Takes no memory.
    pub fn type_rule(&self, to: Target) -> Option<u8>
        ensures { result ≡ type_rule self.now (target_seen to) }
    {
        match to {
            Target::Simple(index) => type_there(self.simple_type(index)),
            Target::Record(place) => type_there(self.record_type(place)),
            Target::Broken(rule) => Some(rule),
        }
    }
}

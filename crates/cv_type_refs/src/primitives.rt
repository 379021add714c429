//! The primitives to which links lead.
ghost use Rattle.std.specs.Prelude.{◌≡◌};
ghost use Rattle.cv_type_defs.specs.Enumerations.{enumeration_primitive, primitive_of, primitive_rule};
ghost use Rattle.cv_links.specs.Seen.{target_seen};
ghost use Rattle.cv_type_refs.specs.Seen.{primitive_in, primitive_there};

use crate::info::TypeInfo;
use crate::type_refs::WRONG_KIND;
use cv_links::Target;
use layout_set::{Primitive, TypeRef};

/// The primitive that a type is.
fn primitive_in(ty: Option<TypeRef>) -> Option<Primitive>
    ensures { result ≡ primitive_in ty }
{
    match ty {
        Some(TypeRef::Prim(prim)) => Some(prim),
        Some(TypeRef::User(_)) => None,
        None => None,
    }
}

/// The rule of a link that leads to this, unless it is broken.
fn primitive_there(prim: Option<Primitive>) -> Option<u8>
    ensures { result ≡ primitive_there prim }
{
    match prim {
        Some(_) => None,
        None => Some(WRONG_KIND),
    }
}

impl<'a> TypeInfo<'a> {
    /// The primitive to which a link leads, if it leads to one. Takes no memory.
    pub fn primitive_of(&self, to: Target) -> Option<Primitive>
        ensures { result ≡ primitive_of self.now (target_seen to) }
    {
        primitive_in(self.type_of(to))
    }

    /// The rule that a link to a primitive breaks: its own, or 55 where it leads to none. Takes no memory.
    pub fn primitive_rule(&self, to: Target) -> Option<u8>
        ensures { result ≡ primitive_rule self.now (target_seen to) }
    {
        match to {
            Target::Simple(_) => primitive_there(self.primitive_of(to)),
            Target::Record(_) => primitive_there(self.primitive_of(to)),
            Target::Broken(rule) => Some(rule),
        }
    }

    /// The primitive of the LF_ENUM at a place that has this type; the unit where that is none. Takes no
    /// memory.
    pub fn enumeration_primitive(&self, place: usize, ty: u32) -> Primitive
        ensures { result ≡ enumeration_primitive self.now place ty }
    {
        self.primitive_of(self.links().target(place, ty))
            .unwrap_or(Primitive::Unit)
    }
}

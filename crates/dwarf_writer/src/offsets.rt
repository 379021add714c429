//! Where entries begin that others lead to.
use layout_set::{Primitive, TypeRef};
use rv_io::List;
use std::alloc::Global;

/// Where entries begin that others lead to: in bytes from the start of the unit, each below 2^32.
#[derive(Drop)]
pub(crate) struct Offsets {
    /// Those of the primitives, in the order of `primitives::ALL`.
    pub primitives: List<u32>,
    /// That of the type that functions have.
    pub subroutine: u32,
    /// Those of the types, in order.
    pub types: List<u32>,
    /// Those of the structures of variants, in order.
    pub structures: List<u32>,
}

impl Offsets {
    /// None are known.
    pub(crate) fn none(alloc: Global) -> Offsets {
        Offsets {
            primitives: List::new(alloc),
            subroutine: 0,
            types: List::new(alloc),
            structures: List::new(alloc),
        }
    }

    /// That of a type; 0 where it isn't known.
    pub(crate) fn of(&self, ty: TypeRef) -> u32 {
        match ty {
            TypeRef::Prim(prim) => at(self.primitives.as_slice(), place_of(prim)),
            TypeRef::User(i) => at(self.types.as_slice(), i as usize),
        }
    }

    /// That of the structure of a variant, of those of all enums; 0 where it isn't known.
    pub(crate) fn of_structure(&self, place: usize) -> u32 {
        at(self.structures.as_slice(), place)
    }
}

/// An offset in 32 bits: its low ones.
pub(crate) fn low_half(offset: u64) -> u32 {
    (offset % 4294967296) as u32
}

/// The offset at a place; 0 where there is none.
fn at(offsets: &[u32], place: usize) -> u32 {
    match offsets.get(place) {
        Some(offset) => *offset,
        None => 0,
    }
}

/// The place of a primitive among all.
fn place_of(prim: Primitive) -> usize {
    match prim {
        Primitive::Unit => 0,
        Primitive::Bool => 1,
        Primitive::Char => 2,
        Primitive::I8 => 3,
        Primitive::I16 => 4,
        Primitive::I32 => 5,
        Primitive::I64 => 6,
        Primitive::I128 => 7,
        Primitive::Isize => 8,
        Primitive::U8 => 9,
        Primitive::U16 => 10,
        Primitive::U32 => 11,
        Primitive::U64 => 12,
        Primitive::U128 => 13,
        Primitive::Usize => 14,
        Primitive::F32 => 15,
        Primitive::F64 => 16,
    }
}

//! The sizes of types.
ghost use Rattle.std.specs.Prelude.{◌≡◌, ◌-◌, ◌^◌, ◌<◌, length, min};
ghost use Rattle.layout_set.specs.Sizes.{size, size_by, def_size, AreSmall, IsSizeOf};
ghost use Rattle.layout_set.specs.HasSizes.{HasSizes};
ghost use Rattle.layout_set.specs.Law1.{IsWithin};

use crate::primitive::prim_size;
use crate::set::{Set, TypeDef, TypeRef};

/// The size of a type, through at most so many types in one another. It saturates.
#[cycle(sizing)]
#[tactic(auto, unfolding(crate::specs::Sizes::size_by))]
fn size_at(ptr: u8, types: &[TypeDef], ty: TypeRef, most: u32) -> u64
    ensures { result ≡ min (size_by ptr most types.now ty) (2 ^ 64 - 1) }
{
    if most == 0 {
        return 0;
    }
    match ty {
        TypeRef::Prim(prim) => u64::from(prim_size(ptr, prim)),
        TypeRef::User(i) => match types.get(i as usize) {
            Some(def) => def_size_at(ptr, types, def, most - 1),
            None => 0,
        },
    }
}

/// The size of a type, through at most so many types in one another. It saturates.
#[cycle(sizing)]
#[tactic(auto, unfolding(crate::specs::Sizes::size_by))]
fn def_size_at(ptr: u8, types: &[TypeDef], def: &TypeDef, most: u32) -> u64
    ensures { result ≡ min (def_size ptr (size_by ptr most types.now) def.now) (2 ^ 64 - 1) }
{
    match def {
        TypeDef::Struct { size, .. } | TypeDef::Enum { size, .. } | TypeDef::Bytes { size, .. } => {
            u64::from(*size)
        }
        TypeDef::Array { elem, count } => size_at(ptr, types, *elem, most).saturating_mul(*count),
        TypeDef::Thin { .. } | TypeDef::FnPtr => u64::from(ptr),
        TypeDef::Slice { .. } | TypeDef::Str { .. } | TypeDef::Dyn { .. } => 2 * u64::from(ptr),
        TypeDef::CLike { tag, .. } => u64::from(prim_size(ptr, *tag)),
    }
}

/// The size of a type of the set. It saturates.
pub fn def_size(ptr: u8, types: &[TypeDef], def: &TypeDef) -> u64
    ensures { result ≡ min (def_size ptr (size_by ptr 256 types.now) def.now) (2 ^ 64 - 1) }
{
    def_size_at(ptr, types, def, 256)
}

/// The size of a type that is referred to. It saturates.
#[tactic(auto, unfolding(crate::specs::Sizes::size))]
pub fn size_in(ptr: u8, types: &[TypeDef], ty: TypeRef) -> u64
    ensures { result ≡ min (size ptr types.now ty) (2 ^ 64 - 1) }
{
    size_at(ptr, types, ty, 257)
}

/// The size of a type that is referred to, where sizes are small.
#[tactic(auto, using(crate::proofs::SizeSteps::small_size))]
pub fn small_size(ptr: u8, types: &[TypeDef], ty: TypeRef) -> u32
    requires { AreSmall ptr types.now }
    ensures { result ≡ size ptr types.now ty }
{
    size_in(ptr, types, ty) as u32
}

/// The size of a type of the set, in bytes. Takes no memory.
#[tactic(auto, using(crate::proofs::SizeSteps::are_small, crate::proofs::SizeLevels::size_is))]
pub fn size_of(set: &Set, ty: TypeRef) -> u32
    requires sizes { HasSizes set.now }
    requires within { IsWithin (length set.now.types) ty }

    // It is the size by the definition, which is count times the element's for an array.
    ensures value { result ≡ size set.now.target.ptr set.now.types ty }
    ensures meaning { IsSizeOf set.now.target.ptr set.now.types ty result }
{
    small_size(set.target.ptr, set.types.as_slice(), ty)
}

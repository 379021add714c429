//! Law 6: fat pointers are made of thin pointers.
ghost use Rattle.std.specs.Prelude.{◌≡◌, length};
ghost use Rattle.std.specs.Bool.{Decides};
ghost use Rattle.std.specs.List.{HoldsAt};
ghost use Rattle.layout_set.specs.Found.{IsFirst, Found};
ghost use Rattle.layout_set.specs.Law6.{IsThin, IsThinToBytes, HasThinPointers, Law6};

use layout_set::breach::breach;
use layout_set::{CheckErr, Primitive, Set, TypeDef, TypeRef};

/// Whether a thin pointer is referred to.
fn is_thin(types: &[TypeDef], ty: TypeRef) -> bool
    ensures { Decides result (IsThin types.now ty) }
{
    let TypeRef::User(i) = ty else {
        return false;
    };
    matches!(types.get(i as usize), Some(TypeDef::Thin { .. }))
}

/// Whether `u8` is referred to.
fn is_bytes(ty: TypeRef) -> bool
    ensures { Decides result (ty ≡ TypeRef.Prim Primitive.U8) }
{
    matches!(ty, TypeRef::Prim(Primitive::U8))
}

/// Whether a thin pointer to `u8` is referred to.
fn is_thin_to_bytes(types: &[TypeDef], ty: TypeRef) -> bool
    ensures { Decides result (IsThinToBytes types.now ty) }
{
    let TypeRef::User(i) = ty else {
        return false;
    };
    match types.get(i as usize) {
        Some(TypeDef::Thin { to, .. }) => is_bytes(*to),
        _ => false,
    }
}

/// Whether the type is no fat pointer, or is made of thin ones.
#[tactic(auto, unfolding(layout_set::specs::Law6::HasThinPointers))]
fn has_thin_pointers(types: &[TypeDef], def: &TypeDef) -> bool
    ensures { Decides result (HasThinPointers types.now def.now) }
{
    match def {
        TypeDef::Slice { ptr, .. } => is_thin(types, *ptr),
        TypeDef::Str { ptr, .. } => is_thin_to_bytes(types, *ptr),
        TypeDef::Dyn { ptr, vtable, .. } => is_thin(types, *ptr) && is_thin(types, *vtable),
        _ => true,
    }
}

/// The first type of which law 6 is false.
fn first_6(types: &[TypeDef]) -> Option<usize>
    ensures { IsFirst (HoldsAt (HasThinPointers types.now) types.now) (length types.now) result }
{
    for (i, def) in types.iter().enumerate() {
        if !has_thin_pointers(types, def) {
            return Some(i);
        }
    }
    None
}

/// Law 6: a fat pointer is made of thin pointers.
pub fn law_6(set: &Set) -> Result<(), CheckErr>
    ensures { Found set.now 6 (Law6 set.now) result }
{
    breach(6, true, first_6(set.types.as_slice()), None, None)
}

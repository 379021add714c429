//! What the numbers of pointers may be, and how far pointers are followed.
ghost use Rattle.std.specs.Prelude.{◌≡◌};
ghost use Rattle.layout_values.specs.Pointers.{may_point, may_span, below, pointee};

use layout_set::{TypeDef, TypeRef};
use names::PtrKind;

/// A pointer of this kind may have this number.
pub(crate) fn may_point(kind: PtrKind, at: u64) -> bool
    ensures { result ≡ may_point kind at }
{
    !kind.is_non_null() || 0 < at
}

/// A pointer of this kind to so many elements of this size may have this number.
pub(crate) fn may_span(kind: PtrKind, size: u32, at: u64, len: u64) -> bool
    ensures { result ≡ may_span 8 kind size at len }
{
    !kind.is_non_null() || 0 < at && u128::from(len) * u128::from(size) < 0x8000_0000_0000_0000
}

/// The depth that is left for what a pointer leads to, where it is followed.
pub(crate) fn below(kind: PtrKind, depth: u32) -> Option<u32>
    ensures { result ≡ below kind depth }
{
    if kind.is_non_null() && 0 < depth {
        Some(depth - 1)
    } else {
        None
    }
}

/// What the type leads to, where it is a thin pointer.
pub(crate) fn pointee(types: &[TypeDef], ty: TypeRef) -> Option<TypeRef>
    ensures { result ≡ pointee types.now ty }
{
    match ty {
        TypeRef::Prim(_) => None,
        TypeRef::User(i) => match types.get(i as usize) {
            Some(TypeDef::Thin { kind: _, to }) => Some(*to),
            _ => None,
        },
    }
}

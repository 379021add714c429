//! Simple types: type indices below 0x1000.
ghost use Rattle.std.specs.Prelude.{◌≡◌};
ghost use Rattle.cv_type_defs.specs.SimpleTypes.{primitive_at, pointed_at};

use layout_set::Primitive;

/// The first 64-bit pointer to a simple type, that to 0.
const POINTERS: u32 = 0x600;

/// The primitive that a simple type is; void is the unit. None for every other index. Takes no memory.
#[tactic(auto, unfolding(crate::specs::SimpleTypes::primitive_at))]
pub fn primitive_at(index: u32) -> Option<Primitive>
    ensures { result ≡ primitive_at index }
{
    let prim = match index {
        0x03 => Primitive::Unit,
        0x10 => Primitive::I8,
        0x11 => Primitive::I16,
        0x13 => Primitive::I64,
        0x14 => Primitive::I128,
        0x20 => Primitive::U8,
        0x21 => Primitive::U16,
        0x23 => Primitive::U64,
        0x24 => Primitive::U128,
        0x30 => Primitive::Bool,
        0x40 => Primitive::F32,
        0x41 => Primitive::F64,
        0x74 => Primitive::I32,
        0x75 => Primitive::U32,
        0x7b => Primitive::Char,
        _ => return None,
    };
    Some(prim)
}

/// The primitive to which the 64-bit pointer leads that a simple type is; None where it is no such
/// pointer. Takes no memory.
pub fn pointed_at(index: u32) -> Option<Primitive>
    ensures { result ≡ pointed_at index }
{
    if index < POINTERS {
        None
    } else {
        primitive_at(index - POINTERS)
    }
}

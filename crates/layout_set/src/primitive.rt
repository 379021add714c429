//! The primitive types.
ghost use Rattle.std.specs.Prelude.{◌≡◌};
ghost use Rattle.layout_set.specs.Primitives.{prim_bytes, is_whole};

/// A primitive type.
#[derive(Clone, Copy, Debug, PartialEq, Eq)]
pub enum Primitive {
    Unit,
    Bool,
    Char,
    I8,
    I16,
    I32,
    I64,
    I128,
    Isize,
    U8,
    U16,
    U32,
    U64,
    U128,
    Usize,
    F32,
    F64,
}

/// A primitive type, by its short name.
pub type Prim = Primitive;

/// The size of a primitive, in bytes, where a pointer has `ptr`. Takes no memory.
pub fn prim_size(ptr: u8, prim: Primitive) -> u32
    ensures { result ≡ prim_bytes ptr prim }
{
    match prim {
        Primitive::Unit => 0,
        Primitive::Bool | Primitive::I8 | Primitive::U8 => 1,
        Primitive::I16 | Primitive::U16 => 2,
        Primitive::Char | Primitive::I32 | Primitive::U32 | Primitive::F32 => 4,
        Primitive::I64 | Primitive::U64 | Primitive::F64 => 8,
        Primitive::I128 | Primitive::U128 => 16,
        Primitive::Isize | Primitive::Usize => u32::from(ptr),
    }
}

/// Whether the primitive is a whole number, signed or not.
pub fn is_whole(prim: Primitive) -> bool
    ensures { result ≡ is_whole prim }
{
    !matches!(
        prim,
        Primitive::Unit | Primitive::Bool | Primitive::Char | Primitive::F32 | Primitive::F64
    )
}

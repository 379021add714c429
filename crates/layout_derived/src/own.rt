//! Names that are made over no other: those of primitives, of functions, and those that types are given.
ghost use Rattle.std.specs.Prelude.{◌≡◌, ◌++◌, length, None, IfSome, OnOk, OnErr};
ghost use Rattle.type_names.specs.RustText.{rust_text};
ghost use Rattle.layout_set.specs.DerivedNames.{own_name};
ghost use Rattle.layout_set.specs.Law1.{IsWithin};
ghost use Rattle.layout_derived.specs.DerivedTexts.{AppendsDerived, prim_word, step_of};

use layout_set::{Primitive, TypeDef, TypeRef};
use rv_io::{Buf, Memory};
use type_names::rust_spelling;

/// Appends the name of what is referred to, which leads no further. Out of memory, the buffer is as before.
pub(crate) fn put_own(types: &[TypeDef], ty: TypeRef, out: &mut Buf) -> Result<(), Memory>
    requires within { IsWithin (length types.now) ty }
    requires last { step_of types.now ty ≡ None }
    ensures put { OnOk result (AppendsDerived types.now ty out.old out.new) }
    ensures same { OnErr result (out.new ≡ out.old) }
{
    match ty {
        TypeRef::Prim(prim) => out.put(prim_word(prim)),
        TypeRef::User(i) => put_own_name(&types[i as usize], out),
    }
}

/// Appends the name that a type has of its own, if it has one. Out of memory, the buffer is as before.
fn put_own_name(def: &TypeDef, out: &mut Buf) -> Result<(), Memory>
    ensures put { OnOk result (IfSome (own_name def.now) (λ name. out.new ≡ out.old ++ rust_text name)) }
    ensures same { OnErr result (out.new ≡ out.old) }
{
    match def {
        TypeDef::Thin { .. } | TypeDef::Array { .. } => Ok(()),
        TypeDef::FnPtr => out.put(b"fn()"),
        TypeDef::Struct { name, .. }
        | TypeDef::Slice { name, .. }
        | TypeDef::Str { name, .. }
        | TypeDef::Dyn { name, .. }
        | TypeDef::CLike { name, .. }
        | TypeDef::Enum { name, .. }
        | TypeDef::Bytes { name, .. } => rust_spelling(name, out),
    }
}

/// The word of a primitive, or the empty tuple.
fn prim_word(prim: Primitive) -> &'static [u8]
    ensures { result.now ≡ prim_word prim }
{
    match prim {
        Primitive::Unit => b"()",
        Primitive::Bool => b"bool",
        Primitive::Char => b"char",
        Primitive::I8 => b"i8",
        Primitive::I16 => b"i16",
        Primitive::I32 => b"i32",
        Primitive::I64 => b"i64",
        Primitive::I128 => b"i128",
        Primitive::Isize => b"isize",
        Primitive::U8 => b"u8",
        Primitive::U16 => b"u16",
        Primitive::U32 => b"u32",
        Primitive::U64 => b"u64",
        Primitive::U128 => b"u128",
        Primitive::Usize => b"usize",
        Primitive::F32 => b"f32",
        Primitive::F64 => b"f64",
    }
}

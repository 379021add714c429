//! Sets of types, statics and functions.
use crate::func::Func;
use crate::primitive::Primitive;
use names::{Name, PtrKind, Word};
use rv_io::List;

/// A type that is referred to: a primitive, or the type of the set at this place.
#[derive(Clone, Copy, Debug, PartialEq, Eq)]
pub enum TypeRef {
    Prim(Primitive),
    User(u32),
}

/// What the set is laid out for. `ptr` is the size of a pointer, in bytes.
#[derive(Clone, Copy, Debug, PartialEq, Eq)]
pub struct Target {
    pub ptr: u8,
}

/// A type that the name of a type is made with, under the name that it has there.
#[derive(Drop)]
pub struct Param {
    pub name: Word,
    pub ty: TypeRef,
}

/// A field, `off` bytes from the begin of the struct or enum that has it.
#[derive(Drop)]
pub struct Field {
    pub name: Word,
    pub off: u32,
    pub ty: TypeRef,
}

/// A case of an enum without fields, and its number.
#[derive(Drop)]
pub struct Case {
    pub name: Word,
    pub number: u64,
}

/// The number that chooses a variant, `off` bytes from the begin of the enum.
#[derive(Clone, Copy, Debug, PartialEq, Eq)]
pub struct Tag {
    pub off: u32,
    pub prim: Primitive,
}

/// The numbers that choose a variant. A `Span` has its first and its last number, and goes on
/// from 0 where the first is above the last.
#[derive(Clone, Copy, Debug, PartialEq, Eq)]
pub enum Selector {
    Exact(u128),
    Span(u128, u128),
    Only,
}

/// A variant of an enum.
#[derive(Drop)]
pub struct Variant {
    pub name: Word,
    pub sel: Selector,
    pub fields: List<Field>,
}

/// A type. Sizes and aligns are in bytes, and an align of 0 means that none is given.
#[derive(Drop)]
pub enum TypeDef {
    /// A struct, a tuple or a closure.
    Struct {
        name: Name,
        size: u32,
        align: u32,
        params: List<Param>,
        fields: List<Field>,
    },
    /// An array.
    Array {
        elem: TypeRef,
        count: u64,
    },
    /// A pointer without a length or a table.
    Thin {
        kind: PtrKind,
        to: TypeRef,
    },
    /// A pointer to a slice, with its length.
    Slice {
        name: Name,
        kind: PtrKind,
        ptr: TypeRef,
    },
    /// A pointer to text, with its length.
    Str {
        name: Name,
        kind: PtrKind,
        ptr: TypeRef,
    },
    /// A pointer to a value of an unknown type, with a table of its methods.
    Dyn {
        name: Name,
        kind: PtrKind,
        ptr: TypeRef,
        vtable: TypeRef,
    },
    /// A pointer to a function.
    FnPtr,
    /// An enum none of whose variants has fields.
    CLike {
        name: Name,
        tag: Primitive,
        cases: List<Case>,
    },
    /// An enum.
    Enum {
        name: Name,
        size: u32,
        align: u32,
        params: List<Param>,
        tag: Option<Tag>,
        variants: List<Variant>,
    },
    /// A type that is shown as bytes.
    Bytes {
        name: Name,
        size: u32,
        align: u32,
    },
}

/// A static, and its address where it has one.
#[derive(Drop)]
pub struct Static {
    pub name: Name,
    pub ty: TypeRef,
    pub addr: Option<u64>,
}

/// Types, which are known by their places, statics, and functions.
#[derive(Drop)]
pub struct Set {
    pub target: Target,
    pub types: List<TypeDef>,
    pub statics: List<Static>,
    pub funcs: List<Func>,
}

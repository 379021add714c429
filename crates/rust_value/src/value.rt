//! Values.
use names::{PtrKind, Word};
use rv_io::{Boxed, List, Text};

/// A value under the name of a field.
#[cycle(value)]
#[derive(Debug, Drop)]
pub struct Part {
    /// What the field is called.
    pub name: Word,
    /// What it holds.
    pub val: Val,
}

/// The value of a type.
#[cycle(value)]
#[derive(Debug, Drop)]
pub enum Val {
    /// `()`
    Unit,
    Bool(bool),
    Char(char),
    Unsigned(u128),
    Signed(i128),
    /// The bits of an `f32`.
    Float32(u32),
    /// The bits of an `f64`.
    Float64(u64),
    /// A struct, tuple or closure: its fields in order.
    Fields(List<Part>),
    /// A variant of an enum: its name, and its fields in order.
    Variant(Word, List<Part>),
    /// An array, or what a slice leads to: its true length, and the elements that are shown, from the first on.
    Seq(u64, List<Val>),
    /// A pointer of one word: its kind, its address, and what it leads to, where that is shown.
    Pointer(PtrKind, u64, Option<Boxed<Val>>),
    /// A pointer to a slice: its kind, its address, its length in elements, and a `Seq` of what it leads to, where that is
    /// shown.
    Slice(PtrKind, u64, u64, Option<Boxed<Val>>),
    /// A pointer to a text: its kind, its address, its length in bytes, and the text, where that is shown.
    Str(PtrKind, u64, u64, Option<Text>),
    /// A pointer to a trait object: its kind, its address, and the address of its vtable.
    Dyn(PtrKind, u64, u64),
    /// A pointer to the function at an address.
    Function(u64),
    /// Bytes of a type that is not told.
    Bytes(Text),
}

//! Values in an arena.
use names::PtrKind;

/// A value in an arena, under the name of a field.
#[cycle(held)]
#[derive(Clone, Copy)]
pub struct PartIn<'b> {
    /// What the field is called.
    pub name: &'b [u8],
    /// What it holds.
    pub val: ValIn<'b>,
}

/// The value of a type, in an arena: all that is in it is a final slice or a value of the arena. It stands for one `Val`.
#[cycle(held)]
#[derive(Clone, Copy)]
pub enum ValIn<'b> {
    /// `()`
    Unit,
    Bool(bool),
    Char(char),
    Unsigned(u128),
    Signed(i128),
    /// The bits of an `f32`.
    Float32(u32),
    /// The bits of an `f64`.
    Float64(u64),
    /// A struct, tuple or closure: its fields in order.
    Fields(&'b [PartIn<'b>]),
    /// A variant of an enum: its name, and its fields in order.
    Variant(&'b [u8], &'b [PartIn<'b>]),
    /// An array, or what a slice leads to: its true length, and the elements that are shown, from the first on.
    Seq(u64, &'b [ValIn<'b>]),
    /// A pointer of one word: its kind, its address, and what it leads to, where that is shown.
    Pointer(PtrKind, u64, Option<&'b ValIn<'b>>),
    /// A pointer to a slice: its kind, its address, its length in elements, and a `Seq` of what it leads to, where that is
    /// shown.
    Slice(PtrKind, u64, u64, Option<&'b ValIn<'b>>),
    /// A pointer to a text: its kind, its address, its length in bytes, and the text, where that is shown.
    Str(PtrKind, u64, u64, Option<&'b [u8]>),
    /// A pointer to a trait object: its kind, its address, and the address of its vtable.
    Dyn(PtrKind, u64, u64),
    /// A pointer to the function at an address.
    Function(u64),
    /// Bytes of a type that is not told.
    Bytes(&'b [u8]),
}

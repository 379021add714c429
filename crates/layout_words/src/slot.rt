//! What stands as a word of a line.

/// What a word of a line must be.
#[derive(Clone, Copy, Debug, PartialEq, Eq)]
pub enum Slot {
    /// The version of the form, which is `1`.
    Version,
    /// The number of the type, which is the next one.
    Next,
    /// A number of so many bits.
    Number(u32),
    /// An address, or `none`.
    Address,
    /// A primitive, or `#` and the number of a type.
    Reference,
    /// A kind of pointer.
    Pointer,
    /// A primitive.
    Primitive,
    /// A word that says the kind of the line, which is known.
    Kind,
    /// A word of the names' grammar.
    Word,
    /// A name, which is the rest of the line.
    Name,
    /// A register, or `none`.
    Frame,
    /// A register.
    Register,
    /// A signed number of 32 bits.
    Signed,
    /// An address.
    Hex,
    /// Bytes in pairs of digits, or `-` for none.
    Digits,
    /// Zones, of which each is a word, and which are the rest of the line; there may be none.
    Zones,
    /// Operations, of which each is a word, and which are the rest of the line.
    Operations,
}

//! The numbers of the rules that bytes may break.

/// The bytes end inside an item.
pub const SHORT: u8 = 10;

/// A LEB128 number has an eleventh byte, or bits past the 64th (DWARF 5, 7.6).
pub const WIDE: u8 = 11;

/// No zero byte ends a text.
pub const NO_ZERO: u8 = 12;

/// The kind of a numeric leaf is unknown.
pub const UNKNOWN_LEAF: u8 = 13;

/// The bytes before a zero byte are no text: they aren't UTF-8, or are more than 65,535.
pub const NO_TEXT: u8 = 14;

/// An offset or an index leads outside its section.
pub const OUTSIDE: u8 = 31;

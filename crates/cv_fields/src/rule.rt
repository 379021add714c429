//! The rules of what type records say, by their numbers.

/// A count of the set is past its limit.
pub const TOO_MANY: u8 = 30;

/// A number doesn't fit its field.
pub const NO_FIT: u8 = 34;

/// A name that must be a word is none.
pub const NO_WORD: u8 = 39;

/// The size of an array is no multiple of that of its element.
pub const ARRAY_SHAPE: u8 = 43;

/// A record or a simple type of a kind that may not be there.
pub const WRONG_KIND: u8 = 55;

/// An enum has another shape than `enum2$` has.
pub const ENUM_SHAPE: u8 = 57;

/// A static member of a variant has no S_CONSTANT.
pub const NO_CONSTANT: u8 = 58;

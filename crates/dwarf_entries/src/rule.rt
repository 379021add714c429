//! The numbers of the rules of what entries say, beside those of `rv_bytes::rule`.

/// A count of the set is past its limit.
pub const TOO_MANY: u8 = 30;

/// A link leads to no entry.
pub const NO_ENTRY: u8 = 32;

/// A form is of the wrong class.
pub const WRONG_CLASS: u8 = 33;

/// A number doesn't fit its field.
pub const NO_FIT: u8 = 34;

/// A name that must be a word is none.
pub const NO_WORD: u8 = 39;

/// A needed attribute, or the member of a variant, is missing.
pub const MISSING: u8 = 40;

/// A link to a type leads to none, or to none that may stand there.
pub const NO_TYPE: u8 = 41;

/// A base type is none of the primitives.
pub const NO_PRIMITIVE: u8 = 42;

/// An array has another shape than one subrange with a count.
pub const ARRAY_SHAPE: u8 = 43;

/// A variant part, or a variant, has another shape than an enum's.
pub const ENUM_SHAPE: u8 = 44;

/// A discriminant names no member of its part.
pub const NO_TAG_MEMBER: u8 = 45;

/// Too many typedefs or origins follow one another.
pub const TOO_LONG: u8 = 46;

/// A member is a bit field.
pub const BIT_FIELD: u8 = 48;

/// Laws 1 to 6 of a set are this number more.
pub const FIRST_LAW: u8 = 70;

/// A function is there, which isn't read yet.
pub const NOT_YET: u8 = 99;

//! The numbers of the rules that operations may break, beside those of `rv_bytes::rule`.

/// An operation, a register or a size is none of those that are read.
pub const OPERATION: u8 = 35;

/// Operations stand in an order in which they are no place.
pub const ORDER: u8 = 36;

/// An operation counts from a frame base that isn't known.
pub const FRAME: u8 = 47;

//! The number of the rule that pieces may break, beside those of `rv_bytes::rule` and `expr_bytes::rule`.

/// The size of a piece has more than 32 bits.
pub const NO_FIT: u8 = 34;

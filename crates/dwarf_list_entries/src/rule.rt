//! The number of the rule that entries of lists may break, beside those of `rv_bytes::rule`.

/// The kind of an entry is none of those that are read (DWARF 5, 7.7.3 and 7.25).
pub const UNKNOWN_KIND: u8 = 38;

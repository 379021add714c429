//! The numbers of the rules that abbreviation tables and attributes may break, beside those of `rv_bytes::rule`.

/// A table begins outside its section.
pub const TABLE_OUTSIDE: u8 = 24;

/// A children byte is neither 0 nor 1 (DWARF 5, 7.5.3).
pub const CHILDREN_BYTE: u8 = 25;

/// An earlier declaration has the code, or the tag is 0 (DWARF 5, 7.5.3).
pub const CODE_OR_TAG: u8 = 26;

/// The form is none of the constants of `form` (DWARF 5, 7.5.6).
pub const UNKNOWN_FORM: u8 = 28;

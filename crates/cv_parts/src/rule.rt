//! The numbers of the rules that records may break, after those of rv_bytes.

/// The first four bytes of a section aren't the number 4.
pub const SIGNATURE: u8 = 50;

/// A record has no room for its kind: its length is below 2.
pub const NO_KIND: u8 = 51;

/// The leaf of a member of a field list is unknown.
pub const UNKNOWN_MEMBER: u8 = 52;

//! The numbers of the rules that a bundle file may break.

/// The first eight bytes are not those of a bundle file, or aren't there whole.
pub const MAGIC: u8 = 1;

/// The format, the pointer size or the two bytes after it have another value, or aren't there whole.
pub const HEADER: u8 = 2;

/// A base or a length isn't there whole, a length leads past the end, or bytes are left over.
pub const CONTENTS: u8 = 3;

//! The numbers of the rules that units and entries may break, beside those of `rv_bytes::rule` and
//! `dwarf_abbrev::rule`.

/// A unit_length is 0xfffffff0 or more, which 32-bit DWARF reserves (DWARF 5, 7.4).
pub const RESERVED_LENGTH: u8 = 20;

/// The version isn't 5 (DWARF 5, 7.5.1).
pub const VERSION: u8 = 21;

/// The unit type isn't DW_UT_compile, or the tag of a unit's first entry isn't DW_TAG_compile_unit
/// (DWARF 5, 7.5.1).
pub const NOT_COMPILE: u8 = 22;

/// The address size isn't 8 (DWARF 5, 7.5.1.1).
pub const ADDRESS_SIZE: u8 = 23;

/// No declaration of the unit's table has the code (DWARF 5, 7.5.2).
pub const UNKNOWN_CODE: u8 = 27;

/// The entry would be nested 257 deep, where a unit's first entry is 1 deep.
pub const TOO_DEEP: u8 = 29;

/// 8,000,000 entries of the section come before it.
pub const TOO_MANY: u8 = 30;

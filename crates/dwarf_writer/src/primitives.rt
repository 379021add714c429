//! Base types (DWARF 5, 5.1).
use crate::abbrevs::code;
use rv_bytes::put_u8;
use rv_io::{Buf, Memory};

/// A base type: its name, its encoding (DWARF 5, table 7.11) and its size in bytes.
#[derive(Clone, Copy)]
pub(crate) struct BaseType {
    name: &'static [u8],
    encoding: u8,
    size: u8,
}

/// The primitives, each in its place.
pub(crate) const ALL: [BaseType; 17] = [
    BaseType {
        name: b"()\0",
        encoding: 0x07,
        size: 0,
    },
    BaseType {
        name: b"bool\0",
        encoding: 0x02,
        size: 1,
    },
    BaseType {
        name: b"char\0",
        encoding: 0x10,
        size: 4,
    },
    BaseType {
        name: b"i8\0",
        encoding: 0x05,
        size: 1,
    },
    BaseType {
        name: b"i16\0",
        encoding: 0x05,
        size: 2,
    },
    BaseType {
        name: b"i32\0",
        encoding: 0x05,
        size: 4,
    },
    BaseType {
        name: b"i64\0",
        encoding: 0x05,
        size: 8,
    },
    BaseType {
        name: b"i128\0",
        encoding: 0x05,
        size: 16,
    },
    BaseType {
        name: b"isize\0",
        encoding: 0x05,
        size: 8,
    },
    BaseType {
        name: b"u8\0",
        encoding: 0x07,
        size: 1,
    },
    BaseType {
        name: b"u16\0",
        encoding: 0x07,
        size: 2,
    },
    BaseType {
        name: b"u32\0",
        encoding: 0x07,
        size: 4,
    },
    BaseType {
        name: b"u64\0",
        encoding: 0x07,
        size: 8,
    },
    BaseType {
        name: b"u128\0",
        encoding: 0x07,
        size: 16,
    },
    BaseType {
        name: b"usize\0",
        encoding: 0x07,
        size: 8,
    },
    BaseType {
        name: b"f32\0",
        encoding: 0x04,
        size: 4,
    },
    BaseType {
        name: b"f64\0",
        encoding: 0x04,
        size: 8,
    },
];

/// Appends the entry of a base type.
pub(crate) fn put_base_type(out: &mut Buf, base: BaseType) -> Result<(), Memory> {
    put_u8(out, code::BASE_TYPE)?;
    out.put(base.name)?;
    put_u8(out, base.encoding)?;
    put_u8(out, base.size)
}

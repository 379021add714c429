//! The entries of statics (DWARF 5, 4.1).
use crate::abbrevs::code;
use crate::entries::{put_name, put_type};
use crate::offsets::Offsets;
use layout_set::Static;
use rv_bytes::{put_u8, put_u64};
use rv_io::{Buf, Memory};

/// The operation `addr`, and how many bytes an expression of it has (DWARF 5, 7.7.1).
const OP_ADDR: u8 = 0x03;

const ADDRESS_LEN: u8 = 9;

/// Appends the entry of a static, with its address if it has one.
pub(crate) fn put_static(
    out: &mut Buf,
    offsets: &Offsets,
    variable: &Static,
) -> Result<(), Memory> {
    match variable.addr {
        Some(address) => {
            put_u8(out, code::STATIC)?;
            put_name(out, &variable.name)?;
            put_type(out, offsets, variable.ty)?;
            put_u8(out, ADDRESS_LEN)?;
            put_u8(out, OP_ADDR)?;
            put_u64(out, address)
        }
        None => {
            put_u8(out, code::STATIC_NOWHERE)?;
            put_name(out, &variable.name)?;
            put_type(out, offsets, variable.ty)
        }
    }
}

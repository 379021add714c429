//! The unit (DWARF 5, 7.5.1).
ghost use Rattle.layout_set.specs.Laws.{IsLawful};

use crate::abbrevs::code;
use crate::entries::put_end;
use crate::offsets::{Offsets, low_half};
use crate::primitives::{ALL, put_base_type};
use crate::statics::put_static;
use crate::types::put_type_def;
use layout_set::Set;
use rv_bytes::{put_u8, put_u16, put_u32};
use rv_io::{Buf, Memory};
use std::alloc::Global;

/// The language Rust (DWARF 5, table 7.17).
const RUST: u8 = 0x1c;

/// Appends the header of a unit of so many bytes after its length.
fn put_header(out: &mut Buf, len: u32) -> Result<(), Memory> {
    put_u32(out, len)?;
    put_u16(out, 5)?;
    put_u8(out, 1)?;
    put_u8(out, 8)?;
    put_u32(out, 0)
}

/// The unit, where it has so many bytes after its length and entries begin at these offsets, and where they do begin.
pub(crate) fn unit(
    alloc: Global,
    set: &Set,
    len: u32,
    offsets: &Offsets,
) -> Result<(Buf, Offsets), Memory>
    requires { IsLawful set.now }
{
    let mut out = Buf::new(alloc);
    let mut found = Offsets::none(alloc);
    put_header(&mut out, len)?;
    put_u8(&mut out, code::COMPILE_UNIT)?;
    put_u8(&mut out, RUST)?;
    for base in ALL.as_slice() {
        found
            .primitives
            .push(low_half(out.as_bytes().len() as u64))?;
        put_base_type(&mut out, *base)?;
    }
    found.subroutine = low_half(out.as_bytes().len() as u64);
    put_u8(&mut out, code::SUBROUTINE)?;
    for (place, def) in set.types.as_slice().iter().enumerate() {
        found.types.push(low_half(out.as_bytes().len() as u64))?;
        put_type_def(
            &mut out,
            offsets,
            &mut found.structures,
            set,
            low_half(place as u64),
            def,
        )?;
    }
    for variable in set.statics.as_slice() {
        put_static(&mut out, offsets, variable)?;
    }
    put_end(&mut out)?;
    Ok((out, found))
}

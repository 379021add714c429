//! Enums with fields (DWARF 5, 5.7.10).
use crate::abbrevs::code;
use crate::entries::{put_end, put_fields, put_type, put_word};
use crate::offsets::{Offsets, low_half};
use layout_set::{Primitive, Selector, Tag, TypeRef, Variant, prim_size};
use rv_bytes::{put_u8, put_u16, put_u32, put_u64, put_u128};
use rv_io::{Buf, List, Memory};

/// How many bytes a pointer has.
const POINTER_SIZE: u8 = 8;

/// How many bytes the part's own code and reference have, after which its tag begins.
const TAG_AFTER: usize = 5;

/// Appends the beginning of a variant by the number that chooses it.
fn put_selector(out: &mut Buf, prim: Primitive, selector: Selector) -> Result<(), Memory> {
    let Selector::Exact(number) = selector else {
        return put_u8(out, code::VARIANT);
    };
    match prim_size(POINTER_SIZE, prim) {
        1 => {
            put_u8(out, code::VARIANT_1)?;
            put_u8(out, (number % 256) as u8)
        }
        2 => {
            put_u8(out, code::VARIANT_2)?;
            put_u16(out, (number % 65536) as u16)
        }
        4 => {
            put_u8(out, code::VARIANT_4)?;
            put_u32(out, (number % 4294967296) as u32)
        }
        8 => {
            put_u8(out, code::VARIANT_8)?;
            put_u64(out, (number % 18446744073709551616) as u64)
        }
        _ => {
            put_u8(out, code::VARIANT_16)?;
            put_u8(out, 16)?;
            put_u128(out, number)
        }
    }
}

/// Appends the beginning of a variant part, with its tag.
fn put_part(out: &mut Buf, offsets: &Offsets, tag: &Option<Tag>) -> Result<(), Memory> {
    let Some(tag) = tag else {
        return put_u8(out, code::PART);
    };
    let begin = out.as_bytes().len();
    put_u8(out, code::TAGGED_PART)?;
    put_u32(out, low_half(begin.wrapping_add(TAG_AFTER) as u64))?;
    put_u8(out, code::TAG)?;
    put_type(out, offsets, TypeRef::Prim(tag.prim))?;
    put_u32(out, tag.off)
}

/// Appends an enum's variant part, and after it the structures of its variants, which are noted in order.
pub(crate) fn put_variants(
    out: &mut Buf,
    offsets: &Offsets,
    found: &mut List<u32>,
    tag: &Option<Tag>,
    variants: &[Variant],
) -> Result<(), Memory> {
    put_part(out, offsets, tag)?;
    let prim = match tag {
        Some(tag) => tag.prim,
        None => Primitive::U8,
    };
    let mut place = found.as_slice().len();
    for variant in variants {
        put_selector(out, prim, variant.sel)?;
        put_u8(out, code::VARIANT_MEMBER)?;
        put_word(out, &variant.name)?;
        put_u32(out, offsets.of_structure(place))?;
        put_end(out)?;
        place = place.wrapping_add(1);
    }
    put_end(out)?;
    for variant in variants {
        found.push(low_half(out.as_bytes().len() as u64))?;
        put_u8(out, code::STRUCTURE)?;
        put_word(out, &variant.name)?;
        put_u32(out, 0)?;
        put_u32(out, 0)?;
        put_fields(out, offsets, variant.fields.as_slice())?;
        put_end(out)?;
    }
    Ok(())
}

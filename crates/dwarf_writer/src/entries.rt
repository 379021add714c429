//! Parts that entries of several kinds have.
use crate::abbrevs::code;
use crate::offsets::Offsets;
use layout_set::{Field, Param, TypeRef};
use names::{Name, Word};
use rust_names::rust_spelling;
use rv_bytes::{put_u8, put_u32};
use rv_io::{Buf, Memory};

/// The code that ends the children of an entry (DWARF 5, 7.5.2).
const END: u8 = 0;

/// Appends the end of an entry's children.
pub(crate) fn put_end(out: &mut Buf) -> Result<(), Memory> {
    put_u8(out, END)
}

/// Appends a name as a text.
pub(crate) fn put_name(out: &mut Buf, name: &Name) -> Result<(), Memory> {
    rust_spelling(name, out)?;
    put_u8(out, 0)
}

/// Appends a word as a text.
pub(crate) fn put_word(out: &mut Buf, word: &Word) -> Result<(), Memory> {
    out.put(word.as_bytes())?;
    put_u8(out, 0)
}

/// Appends a reference to a type.
pub(crate) fn put_type(out: &mut Buf, offsets: &Offsets, ty: TypeRef) -> Result<(), Memory> {
    put_u32(out, offsets.of(ty))
}

/// Appends the entries of fields.
pub(crate) fn put_fields(out: &mut Buf, offsets: &Offsets, fields: &[Field]) -> Result<(), Memory> {
    for field in fields {
        put_u8(out, code::MEMBER)?;
        put_word(out, &field.name)?;
        put_type(out, offsets, field.ty)?;
        put_u32(out, field.off)?;
    }
    Ok(())
}

/// Appends the entries of params.
pub(crate) fn put_params(out: &mut Buf, offsets: &Offsets, params: &[Param]) -> Result<(), Memory> {
    for param in params {
        put_u8(out, code::TYPE_PARAMETER)?;
        put_word(out, &param.name)?;
        put_type(out, offsets, param.ty)?;
    }
    Ok(())
}

/// Appends the beginning of a structure's entry, whose children follow.
pub(crate) fn put_structure(
    out: &mut Buf,
    name: &Name,
    size: u32,
    align: u32,
) -> Result<(), Memory> {
    put_u8(out, code::STRUCTURE)?;
    put_name(out, name)?;
    put_u32(out, size)?;
    put_u32(out, align)
}

/// Appends a member of a fat pointer, by its name with a zero byte after it.
pub(crate) fn put_half(
    out: &mut Buf,
    offsets: &Offsets,
    name: &[u8],
    ty: TypeRef,
    off: u32,
) -> Result<(), Memory> {
    put_u8(out, code::MEMBER)?;
    out.put(name)?;
    put_type(out, offsets, ty)?;
    put_u32(out, off)
}

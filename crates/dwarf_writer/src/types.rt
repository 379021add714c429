//! The entries of types.
ghost use Rattle.std.specs.Prelude.{◌<◌, length};
ghost use Rattle.layout_set.specs.Laws.{IsLawful};

use crate::abbrevs::code;
use crate::entries::{
    put_end, put_fields, put_half, put_name, put_params, put_structure, put_type,
};
use crate::enums::put_variants;
use crate::offsets::Offsets;
use layout_derived::put_derived_name;
use layout_set::{Case, Primitive, Set, TypeDef, TypeRef, prim_size};
use names::{Name, PtrKind};
use rv_bytes::{put_u8, put_u32, put_u64};
use rv_io::{Buf, List, Memory};

/// How many bytes a pointer has.
const POINTER_SIZE: u8 = 8;

/// How many bytes a fat pointer has, and how they are aligned.
const FAT_SIZE: u32 = 16;

const FAT_ALIGN: u32 = 8;

/// Appends the name of a thin pointer: how it begins says its kind.
fn put_thin_name(out: &mut Buf, set: &Set, place: u32) -> Result<(), Memory>
    requires lawful { IsLawful set.now }
{
    if place as usize >= set.types.as_slice().len() {
        return Ok(());
    }
    put_derived_name(set, TypeRef::User(place), out)?;
    put_u8(out, 0)
}

/// Appends a fat pointer of two members.
fn put_fat(
    out: &mut Buf,
    offsets: &Offsets,
    name: &Name,
    names: (&[u8], &[u8]),
    first: TypeRef,
    second: TypeRef,
) -> Result<(), Memory> {
    put_structure(out, name, FAT_SIZE, FAT_ALIGN)?;
    put_half(out, offsets, names.0, first, 0)?;
    put_half(out, offsets, names.1, second, 8)?;
    put_end(out)
}

/// Appends an enumeration.
fn put_enumeration(
    out: &mut Buf,
    offsets: &Offsets,
    name: &Name,
    tag: Primitive,
    cases: &[Case],
) -> Result<(), Memory> {
    put_u8(out, code::ENUMERATION)?;
    put_name(out, name)?;
    put_u8(out, prim_size(POINTER_SIZE, tag) as u8)?;
    put_type(out, offsets, TypeRef::Prim(tag))?;
    for case in cases {
        put_u8(out, code::ENUMERATOR)?;
        out.put(case.name.as_bytes())?;
        put_u8(out, 0)?;
        put_u64(out, case.number)?;
    }
    put_end(out)
}

/// Appends the entry of a type, which is at this place of the set; notes where the structures of variants begin.
pub(crate) fn put_type_def(
    out: &mut Buf,
    offsets: &Offsets,
    found: &mut List<u32>,
    set: &Set,
    place: u32,
    def: &TypeDef,
) -> Result<(), Memory>
    requires { IsLawful set.now }
{
    match def {
        TypeDef::Struct {
            name,
            size,
            align,
            params,
            fields,
        } => {
            put_structure(out, name, *size, *align)?;
            put_params(out, offsets, params.as_slice())?;
            put_fields(out, offsets, fields.as_slice())?;
            put_end(out)
        }
        TypeDef::Array { elem, count } => {
            put_u8(out, code::ARRAY)?;
            put_type(out, offsets, *elem)?;
            put_u8(out, code::SUBRANGE)?;
            put_u64(out, *count)?;
            put_end(out)
        }
        TypeDef::Thin { to, .. } => {
            put_u8(out, code::POINTER)?;
            put_thin_name(out, set, place)?;
            put_type(out, offsets, *to)
        }
        TypeDef::Slice { name, ptr, .. } | TypeDef::Str { name, ptr, .. } => put_fat(
            out,
            offsets,
            name,
            (b"data_ptr\0", b"length\0"),
            *ptr,
            TypeRef::Prim(Primitive::Usize),
        ),
        TypeDef::Dyn {
            name,
            ptr,
            vtable,
            ..
        } => put_fat(
            out,
            offsets,
            name,
            (b"pointer\0", b"vtable\0"),
            *ptr,
            *vtable,
        ),
        TypeDef::FnPtr => {
            put_u8(out, code::FUNCTION_POINTER)?;
            put_u32(out, offsets.subroutine)
        }
        TypeDef::CLike { name, tag, cases } => {
            put_enumeration(out, offsets, name, *tag, cases.as_slice())
        }
        TypeDef::Enum {
            name,
            size,
            align,
            params,
            tag,
            variants,
        } => {
            put_structure(out, name, *size, *align)?;
            put_params(out, offsets, params.as_slice())?;
            put_variants(out, offsets, found, tag, variants.as_slice())?;
            put_end(out)
        }
        TypeDef::Bytes { name, size, align } => {
            put_u8(out, code::UNION)?;
            put_name(out, name)?;
            put_u32(out, *size)?;
            put_u32(out, *align)
        }
    }
}

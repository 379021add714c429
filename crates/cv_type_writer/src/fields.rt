//! The fields of type records are appended, by the record's kind.
ghost use Rattle.std.specs.Prelude.{◌≡◌, ◌<◌, ◌≤◌, ◌^◌, ◌++◌, length, OnOk};
ghost use Rattle.std.specs.List.{All};
ghost use Rattle.byteorder.specs.Endian.{little_bytes};
ghost use Rattle.rv_bytes.specs.Numbers.{number};
ghost use Rattle.cv_parts.specs.Puts.{Puts, IsName};
ghost use Rattle.cv_parts.specs.Series.{so_many};
ghost use Rattle.cv_record_writer.specs.Contents.{all_bytes, IsNumeric};
ghost use Rattle.cv_type_records.specs.declared.kinds.TypeKind.{TypeKind};
ghost use Rattle.cv_type_writer.specs.TypeBytes.{modifier_bytes, pointer_bytes, procedure_bytes, arglist_bytes, fieldlist_bytes, array_bytes, structure_bytes, union_bytes, enum_bytes, fields_bytes};
ghost use Rattle.cv_type_writer.specs.Forms.{MemberHasForm, UniqueIsName, IsUnique, HasForm};
ghost use Rattle.cv_type_writer.specs.Appended.{PutsUnique, PutsFields};

use crate::members::put_members;
use cv_parts::put_name;
use cv_type_records::{Member, TypeKind};
use rv_bytes::{put_numeric, put_u8, put_u16, put_u32};
use rv_io::{Buf, Memory, Text};

/// Appends the fields of LF_MODIFIER.
fn put_modifier(out: &mut Buf, ty: u32, modifiers: u16) -> Result<(), Memory>
    ensures { OnOk result (PutsFields (TypeKind.Modifier ty modifiers) (modifier_bytes ty modifiers) out.old out.new) }
{
    put_u32(out, ty)?;
    put_u16(out, modifiers)
}

/// Appends the fields of LF_POINTER.
fn put_pointer(out: &mut Buf, ty: u32, attributes: u32) -> Result<(), Memory>
    ensures { OnOk result (PutsFields (TypeKind.Pointer ty attributes) (pointer_bytes ty attributes) out.old out.new) }
{
    put_u32(out, ty)?;
    put_u32(out, attributes)
}

/// Appends the fields of LF_PROCEDURE.
fn put_procedure(
    out: &mut Buf,
    returned: u32,
    call: u8,
    options: u8,
    count: u16,
    args: u32,
) -> Result<(), Memory>
    ensures { OnOk result (PutsFields (TypeKind.Procedure returned call options count args) (procedure_bytes returned call options count args) out.old out.new) }
{
    put_u32(out, returned)?;
    put_u8(out, call)?;
    put_u8(out, options)?;
    put_u16(out, count)?;
    put_u32(out, args)
}

/// Appends the index of a type.
fn put_type_index(out: &mut Buf, index: u32) -> Result<(), Memory>
    ensures { OnOk result (Puts (number 4) index (little_bytes 4 index) out.old out.new) }
{
    put_u32(out, index)
}

/// Appends type indices, one after the other.
fn put_indices(out: &mut Buf, types: &[u32]) -> Result<(), Memory>
    ensures { OnOk result (Puts (so_many (number 4) (length types.now)) types.now (all_bytes (little_bytes 4) types.now) out.old out.new) }
{
    for index in types {
        put_type_index(out, *index)?;
    }
    Ok(())
}

/// Appends the fields of LF_ARGLIST: the count of the types, and the types.
fn put_arglist(out: &mut Buf, types: &[u32]) -> Result<(), Memory>
    requires { length types.now < 2 ^ 32 }
    ensures { OnOk result (PutsFields (TypeKind.ArgList types.now) (arglist_bytes types.now) out.old out.new) }
{
    put_u32(out, types.len() as u32)?;
    put_indices(out, types)
}

/// Appends the members of LF_FIELDLIST.
fn put_fieldlist(out: &mut Buf, members: &[Member]) -> Result<(), Memory>
    requires { All MemberHasForm members.now }
    ensures { OnOk result (PutsFields (TypeKind.FieldList members.now) (fieldlist_bytes members.now) out.old out.new) }
{
    put_members(out, members)
}

/// Appends the fields of LF_ARRAY.
fn put_array(out: &mut Buf, elem: u32, index: u32, size: i128, name: &Text) -> Result<(), Memory>
    requires size { IsNumeric size }
    requires name { IsName name.now }
    ensures { OnOk result (PutsFields (TypeKind.Array elem index size name.now) (array_bytes elem index size name.now) out.old out.new) }
{
    put_u32(out, elem)?;
    put_u32(out, index)?;
    put_numeric(out, size)?;
    put_name(out, name)
}

/// Appends a unique name, where there is one.
fn put_unique(out: &mut Buf, unique: &Option<Text>) -> Result<(), Memory>
    requires { UniqueIsName unique.now }
    ensures { OnOk result (PutsUnique unique.now out.old out.new) }
{
    match unique {
        Some(name) => put_name(out, name),
        None => Ok(()),
    }
}

/// Appends the fields of LF_STRUCTURE.
fn put_structure(
    out: &mut Buf,
    count: u16,
    property: u16,
    fields: u32,
    derived: u32,
    vshape: u32,
    size: i128,
    name: &Text,
    unique: &Option<Text>,
) -> Result<(), Memory>
    requires size { IsNumeric size }
    requires name { IsName name.now }
    requires unique { IsUnique property unique.now }
    ensures { OnOk result (PutsFields (TypeKind.Structure count property fields derived vshape size name.now unique.now) (structure_bytes count property fields derived vshape size name.now unique.now) out.old out.new) }
{
    put_u16(out, count)?;
    put_u16(out, property)?;
    put_u32(out, fields)?;
    put_u32(out, derived)?;
    put_u32(out, vshape)?;
    put_numeric(out, size)?;
    put_name(out, name)?;
    put_unique(out, unique)
}

/// Appends the fields of LF_UNION.
fn put_union(
    out: &mut Buf,
    count: u16,
    property: u16,
    fields: u32,
    size: i128,
    name: &Text,
    unique: &Option<Text>,
) -> Result<(), Memory>
    requires size { IsNumeric size }
    requires name { IsName name.now }
    requires unique { IsUnique property unique.now }
    ensures { OnOk result (PutsFields (TypeKind.Union count property fields size name.now unique.now) (union_bytes count property fields size name.now unique.now) out.old out.new) }
{
    put_u16(out, count)?;
    put_u16(out, property)?;
    put_u32(out, fields)?;
    put_numeric(out, size)?;
    put_name(out, name)?;
    put_unique(out, unique)
}

/// Appends the fields of LF_ENUM.
fn put_enum(
    out: &mut Buf,
    count: u16,
    property: u16,
    ty: u32,
    fields: u32,
    name: &Text,
    unique: &Option<Text>,
) -> Result<(), Memory>
    requires name { IsName name.now }
    requires unique { IsUnique property unique.now }
    ensures { OnOk result (PutsFields (TypeKind.Enum count property ty fields name.now unique.now) (enum_bytes count property ty fields name.now unique.now) out.old out.new) }
{
    put_u16(out, count)?;
    put_u16(out, property)?;
    put_u32(out, ty)?;
    put_u32(out, fields)?;
    put_name(out, name)?;
    put_unique(out, unique)
}

/// Appends the fields of a record, by its kind.
pub(crate) fn put_fields(out: &mut Buf, kind: &TypeKind) -> Result<(), Memory>
    requires form { HasForm kind.now }
    requires fits { length (fields_bytes kind.now) ≤ 65535 }
    ensures { OnOk result (PutsFields kind.now (fields_bytes kind.now) out.old out.new) }
{
    match kind {
        TypeKind::Modifier { ty, modifiers } => put_modifier(out, *ty, *modifiers),
        TypeKind::Pointer { ty, attributes } => put_pointer(out, *ty, *attributes),
        TypeKind::Procedure {
            result: returned,
            call,
            options,
            count,
            args,
        } => put_procedure(out, *returned, *call, *options, *count, *args),
        TypeKind::ArgList { types } => put_arglist(out, types.as_slice()),
        TypeKind::FieldList { members } => put_fieldlist(out, members.as_slice()),
        TypeKind::Array {
            elem,
            index,
            size,
            name,
        } => put_array(out, *elem, *index, *size, name),
        TypeKind::Structure {
            count,
            property,
            fields,
            derived,
            vshape,
            size,
            name,
            unique,
        } => put_structure(
            out, *count, *property, *fields, *derived, *vshape, *size, name, unique,
        ),
        TypeKind::Union {
            count,
            property,
            fields,
            size,
            name,
            unique,
        } => put_union(out, *count, *property, *fields, *size, name, unique),
        TypeKind::Enum {
            count,
            property,
            ty,
            fields,
            name,
            unique,
        } => put_enum(out, *count, *property, *ty, *fields, name, unique),
        TypeKind::Other(_) => Ok(()),
    }
}

//! The contents of type records, field by field.
ghost use Rattle.std.specs.Prelude.{◌≡◌, Some, length};
ghost use Rattle.rv_bytes.specs.NumberReaders.{read_number};
ghost use Rattle.rv_bytes.specs.Results.{Reads};
ghost use Rattle.cv_parts.specs.RecordReaders.{read_so_many};
ghost use Rattle.cv_type_records.specs.Contents.{has_unique};
ghost use Rattle.cv_type_records.specs.ContentReaders.{read_modifier, read_pointer, read_procedure, read_arglist, read_fieldlist, read_array, read_unique, read_structure, read_union, read_enum, read_by_kind};

use crate::kinds::TypeKind;
use crate::leaves::TypeLeaf;
use crate::members::read_members;
use cv_parts::read_name;
use rv_bytes::{Cut, DwErr};
use rv_io::{List, Text};
use std::alloc::Global;

/// The bit of a property that says that a unique name follows the name.
const HAS_UNIQUE_NAME: u16 = 0x200;

/// LF_MODIFIER.
fn read_modifier(cut: &mut Cut<'_>) -> Result<TypeKind, DwErr>
    ensures { Reads (read_modifier cut.old.at cut.old.rest) result cut.new }
{
    let ty = cut.u32()?;
    let modifiers = cut.u16()?;
    Ok(TypeKind::Modifier { ty, modifiers })
}

/// LF_POINTER.
fn read_pointer(cut: &mut Cut<'_>) -> Result<TypeKind, DwErr>
    ensures { Reads (read_pointer cut.old.at cut.old.rest) result cut.new }
{
    let ty = cut.u32()?;
    let attributes = cut.u32()?;
    Ok(TypeKind::Pointer { ty, attributes })
}

/// LF_PROCEDURE.
fn read_procedure(cut: &mut Cut<'_>) -> Result<TypeKind, DwErr>
    ensures { Reads (read_procedure cut.old.at cut.old.rest) result cut.new }
{
    let returned = cut.u32()?;
    let call = cut.u8()?;
    let options = cut.u8()?;
    let count = cut.u16()?;
    let args = cut.u32()?;
    Ok(TypeKind::Procedure {
        result: returned,
        call,
        options,
        count,
        args,
    })
}

/// The index of a type.
fn read_type_index(cut: &mut Cut<'_>) -> Result<u32, DwErr>
    ensures { Reads (read_number 4 cut.old.at cut.old.rest) result cut.new }
{
    Ok(cut.u32()?)
}

/// So many type indices.
fn read_indices(alloc: Global, cut: &mut Cut<'_>, count: u32) -> Result<List<u32>, DwErr>
    ensures { Reads (read_so_many (read_number 4) count cut.old.at cut.old.rest) result cut.new }
{
    let mut types = List::new(alloc);
    let mut left = count;
    while left > 0 {
        let index = read_type_index(cut)?;
        types.push(index)?;
        left -= 1;
    }
    Ok(types)
}

/// LF_ARGLIST.
fn read_arglist(alloc: Global, cut: &mut Cut<'_>) -> Result<TypeKind, DwErr>
    ensures { Reads (read_arglist cut.old.at cut.old.rest) result cut.new }
{
    let count = cut.u32()?;
    let types = read_indices(alloc, cut, count)?;
    Ok(TypeKind::ArgList { types })
}

/// LF_FIELDLIST, to the end of the bytes.
fn read_fieldlist(alloc: Global, cut: &mut Cut<'_>) -> Result<TypeKind, DwErr>
    ensures { Reads (read_fieldlist (length cut.old.rest) cut.old.at cut.old.rest) result cut.new }
{
    let members = read_members(alloc, cut)?;
    Ok(TypeKind::FieldList { members })
}

/// LF_ARRAY.
fn read_array(alloc: Global, cut: &mut Cut<'_>) -> Result<TypeKind, DwErr>
    ensures { Reads (read_array cut.old.at cut.old.rest) result cut.new }
{
    let elem = cut.u32()?;
    let index = cut.u32()?;
    let size = cut.numeric()?;
    let name = read_name(alloc, cut)?;
    Ok(TypeKind::Array {
        elem,
        index,
        size,
        name,
    })
}

/// Whether a unique name follows the name.
fn has_unique(property: u16) -> bool
    ensures { result ≡ has_unique property }
{
    property & HAS_UNIQUE_NAME != 0
}

/// The unique name, where the property says that it is there.
fn read_unique(alloc: Global, cut: &mut Cut<'_>, property: u16) -> Result<Option<Text>, DwErr>
    ensures { Reads (read_unique property cut.old.at cut.old.rest) result cut.new }
{
    if has_unique(property) {
        Ok(Some(read_name(alloc, cut)?))
    } else {
        Ok(None)
    }
}

/// LF_STRUCTURE.
fn read_structure(alloc: Global, cut: &mut Cut<'_>) -> Result<TypeKind, DwErr>
    ensures { Reads (read_structure cut.old.at cut.old.rest) result cut.new }
{
    let count = cut.u16()?;
    let property = cut.u16()?;
    let fields = cut.u32()?;
    let derived = cut.u32()?;
    let vshape = cut.u32()?;
    let size = cut.numeric()?;
    let name = read_name(alloc, cut)?;
    let unique = read_unique(alloc, cut, property)?;
    Ok(TypeKind::Structure {
        count,
        property,
        fields,
        derived,
        vshape,
        size,
        name,
        unique,
    })
}

/// LF_UNION.
fn read_union(alloc: Global, cut: &mut Cut<'_>) -> Result<TypeKind, DwErr>
    ensures { Reads (read_union cut.old.at cut.old.rest) result cut.new }
{
    let count = cut.u16()?;
    let property = cut.u16()?;
    let fields = cut.u32()?;
    let size = cut.numeric()?;
    let name = read_name(alloc, cut)?;
    let unique = read_unique(alloc, cut, property)?;
    Ok(TypeKind::Union {
        count,
        property,
        fields,
        size,
        name,
        unique,
    })
}

/// LF_ENUM.
fn read_enum(alloc: Global, cut: &mut Cut<'_>) -> Result<TypeKind, DwErr>
    ensures { Reads (read_enum cut.old.at cut.old.rest) result cut.new }
{
    let count = cut.u16()?;
    let property = cut.u16()?;
    let ty = cut.u32()?;
    let fields = cut.u32()?;
    let name = read_name(alloc, cut)?;
    let unique = read_unique(alloc, cut, property)?;
    Ok(TypeKind::Enum {
        count,
        property,
        ty,
        fields,
        name,
        unique,
    })
}

/// The contents of a record of one of the kinds that are read. Bytes past the last field are left.
pub(crate) fn read_by_kind(
    alloc: Global,
    cut: &mut Cut<'_>,
    leaf: TypeLeaf,
) -> Result<TypeKind, DwErr>
    ensures { Reads (read_by_kind leaf (length cut.old.rest) cut.old.at cut.old.rest) result cut.new }
{
    match leaf {
        TypeLeaf::Modifier => read_modifier(cut),
        TypeLeaf::Pointer => read_pointer(cut),
        TypeLeaf::Procedure => read_procedure(cut),
        TypeLeaf::ArgList => read_arglist(alloc, cut),
        TypeLeaf::FieldList => read_fieldlist(alloc, cut),
        TypeLeaf::Array => read_array(alloc, cut),
        TypeLeaf::Structure => read_structure(alloc, cut),
        TypeLeaf::Union => read_union(alloc, cut),
        TypeLeaf::Enum => read_enum(alloc, cut),
    }
}

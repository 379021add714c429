//! LF_STRUCTUREs: structs and fat pointers.
ghost use Rattle.std.specs.Prelude.{◌≡◌, IfOk, None};
ghost use Rattle.cv_type_defs.specs.FatPointers.{fat_pointer};
ghost use Rattle.cv_type_defs.specs.FieldLists.{members_of};
ghost use Rattle.cv_type_defs.specs.Structures.{fields_rule, structure_def, structure_rule};
ghost use Rattle.cv_type_defs.specs.Texts.{name_of_text};
ghost use Rattle.cv_fields.specs.Seen.{fat_seen};
ghost use Rattle.cv_structures.specs.steps.Structures.{fat_def, field_type, struct_with};

use crate::fields::{fields_of, fields_rule, fit_rule, or_unit};
use cv_fields::{
    Fat, Field, fat_pointer, fields_of as listed, lower, name_of_text, u32_of, u32_or_0,
};
use cv_type_refs::TypeInfo;
use layout_set::{FatContent, TypeDef, TypeRef};
use names::Name;
use rv_io::{List, Memory};
use std::alloc::Global;

/// The type of a field.
fn field_type(info: &TypeInfo<'_>, field: &Field<'_>) -> TypeRef
    ensures { result ≡ field_type info.now field.now }
{
    or_unit(info.type_of(field.target(info.links())))
}

/// The fat pointer of this name.
fn fat_def(info: &TypeInfo<'_>, name: Name, fat: &Fat<'_>) -> TypeDef
    ensures { result ≡ fat_def info.now name (fat_seen fat.now).kind (fat_seen fat.now).content (fat_seen fat.now).first (fat_seen fat.now).second }
{
    let kind = fat.kind;
    let ptr = field_type(info, &fat.first);
    match fat.content {
        FatContent::OfSlice => TypeDef::Slice { name, kind, ptr },
        FatContent::OfStr => TypeDef::Str { name, kind, ptr },
        FatContent::OfDyn => TypeDef::Dyn {
            name,
            kind,
            ptr,
            vtable: field_type(info, &fat.second),
        },
    }
}

/// The struct of this name that the complete LF_STRUCTURE at a place is.
fn struct_def(
    alloc: Global,
    info: &TypeInfo<'_>,
    place: usize,
    fields: u32,
    size: i128,
    name: Name,
) -> Result<TypeDef, Memory>
    requires { fields_rule info.now (members_of info.now.records place fields) ≡ None }
    ensures { IfOk result (λ def. def ≡ struct_with info.now (members_of info.now.records place fields) size name) }
{
    let fields = fields_of(alloc, info, listed(info.links(), place, fields))?;
    Ok(TypeDef::Struct {
        name,
        size: u32_or_0(size),
        align: 0,
        params: List::new(alloc),
        fields,
    })
}

/// The type that the complete LF_STRUCTURE at a place is, which has this index as its field list, this
/// size and this name, and breaks no rule: a fat pointer where it is one, and else a struct. Takes memory
/// for it.
pub fn structure_def(
    alloc: Global,
    info: &TypeInfo<'_>,
    place: usize,
    fields: u32,
    size: i128,
    name: &[u8],
) -> Result<TypeDef, Memory>
    requires { structure_rule info.now (members_of info.now.records place fields) size name.now ≡ None }
    ensures { IfOk result (λ def. def ≡ structure_def info.now (members_of info.now.records place fields) size name.now) }
{
    let fat = fat_pointer(alloc, info.links(), name, place, fields)?;
    let name = name_of_text(alloc, name)?;
    match fat {
        Some(fat) => Ok(fat_def(info, name, &fat)),
        None => struct_def(alloc, info, place, fields, size, name),
    }
}

/// The lowest of the rules that the fields of a structure break, and its list.
fn list_rule(
    alloc: Global,
    info: &TypeInfo<'_>,
    place: usize,
    fields: u32,
) -> Result<Option<u8>, Memory>
    ensures { IfOk result (λ rule. rule ≡ fields_rule info.now (members_of info.now.records place fields)) }
{
    let list = info.links().members_rule(place, fields);
    let each = fields_rule(alloc, info, listed(info.links(), place, fields))?;
    Ok(lower(list, each))
}

/// The lowest of the rules that such an LF_STRUCTURE breaks: its size is no u32, or where it is no fat
/// pointer, those of its list and of its fields. Takes memory for names.
pub fn structure_rule(
    alloc: Global,
    info: &TypeInfo<'_>,
    place: usize,
    fields: u32,
    size: i128,
    name: &[u8],
) -> Result<Option<u8>, Memory>
    ensures { IfOk result (λ rule. rule ≡ structure_rule info.now (members_of info.now.records place fields) size name.now) }
{
    let size = fit_rule(u32_of(size));
    if fat_pointer(alloc, info.links(), name, place, fields)?.is_some() {
        return Ok(size);
    }
    let fields = list_rule(alloc, info, place, fields)?;
    Ok(lower(size, fields))
}

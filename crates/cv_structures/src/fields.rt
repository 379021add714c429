//! The fields of structures.
ghost use Rattle.std.specs.Prelude.{◌≡◌, IfOk, map, None};
ghost use Rattle.cv_type_defs.specs.Items.{lowest};
ghost use Rattle.cv_type_defs.specs.TypeRefs.{field_of, field_rule, fit_rule, or_unit};

use crate::words::{word_of, word_rule};
use cv_fields::{Field, Fields, lower, rule, u32_of, u32_or_0};
use cv_type_refs::TypeInfo;
use layout_set::{Field as SetField, Primitive, TypeRef};
use rv_io::{List, Memory};
use std::alloc::Global;

/// The rule that a number breaks which is no u32. Takes no memory.
pub fn fit_rule(number: Option<u32>) -> Option<u8>
    ensures { result ≡ fit_rule number }
{
    match number {
        Some(_) => None,
        None => Some(rule::NO_FIT),
    }
}

/// The type, and the unit where there is none. Takes no memory.
pub fn or_unit(ty: Option<TypeRef>) -> TypeRef
    ensures { result ≡ or_unit ty }
{
    ty.unwrap_or(TypeRef::Prim(Primitive::Unit))
}

/// The lowest of the rules that a field breaks: its offset is no u32, its name is no word, or its type.
/// Takes memory for its name.
pub fn field_rule(
    alloc: Global,
    info: &TypeInfo<'_>,
    field: &Field<'_>,
) -> Result<Option<u8>, Memory>
    ensures { IfOk result (λ rule. rule ≡ field_rule info.now field.now) }
{
    let offset = fit_rule(u32_of(field.offset()));
    let name = word_rule(alloc, field.name())?;
    let ty = info.type_rule(field.target(info.links()));
    Ok(lower(offset, lower(name, ty)))
}

/// The field of the set that a field is which breaks no rule. Takes memory for its name.
pub fn field_of(alloc: Global, info: &TypeInfo<'_>, field: &Field<'_>) -> Result<SetField, Memory>
    requires { field_rule info.now field.now ≡ None }
    ensures { IfOk result (λ made. made ≡ field_of info.now field.now) }
{
    let name = word_of(alloc, field.name())?;
    Ok(SetField {
        name,
        off: u32_or_0(field.offset()),
        ty: or_unit(info.type_of(field.target(info.links()))),
    })
}

/// The lowest of the rules that fields break. Takes memory for the name of each.
pub fn fields_rule(
    alloc: Global,
    info: &TypeInfo<'_>,
    fields: Fields<'_>,
) -> Result<Option<u8>, Memory>
    ensures { IfOk result (λ rule. rule ≡ lowest (map (field_rule info.now) fields.entry)) }
{
    let mut low = None;
    for field in fields {
        low = lower(low, field_rule(alloc, info, &field)?);
    }
    Ok(low)
}

/// The fields of the set that fields are which break no rule, in order.
pub fn fields_of(
    alloc: Global,
    info: &TypeInfo<'_>,
    fields: Fields<'_>,
) -> Result<List<SetField>, Memory>
    requires { lowest (map (field_rule info.now) fields) ≡ None }
    ensures { IfOk result (λ made. made ≡ map (field_of info.now) fields.entry) }
{
    let mut made = List::new(alloc);
    for field in fields {
        let one = field_of(alloc, info, &field)?;
        made.push(one)?;
    }
    Ok(made)
}

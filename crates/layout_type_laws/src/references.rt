//! The types that a type refers to.
ghost use Rattle.std.specs.Prelude.{◌≡◌, ◌++◌, OnOk, IfOk};
ghost use Rattle.layout_set.specs.References.{references, param_types, field_types, variant_types};

use layout_set::{Field, Param, TypeDef, TypeRef, Variant};
use std::alloc::{AllocError, Global};

/// Appends the types of the params.
fn add_params(found: &mut Vec<TypeRef>, params: &[Param]) -> Result<(), AllocError>
    ensures { OnOk result (found.new.items ≡ found.old.items ++ param_types params.now) }
{
    for param in params {
        found.push(param.ty)?;
    }
    Ok(())
}

/// Appends the types of the fields.
fn add_fields(found: &mut Vec<TypeRef>, fields: &[Field]) -> Result<(), AllocError>
    ensures { OnOk result (found.new.items ≡ found.old.items ++ field_types fields.now) }
{
    for field in fields {
        found.push(field.ty)?;
    }
    Ok(())
}

/// Appends the types of the variants' fields.
fn add_variants(found: &mut Vec<TypeRef>, variants: &[Variant]) -> Result<(), AllocError>
    ensures { OnOk result (found.new.items ≡ found.old.items ++ variant_types variants.now) }
{
    for variant in variants {
        add_fields(found, variant.fields.as_slice())?;
    }
    Ok(())
}

/// All types that a type refers to.
pub(crate) fn references(alloc: Global, def: &TypeDef) -> Result<Vec<TypeRef>, AllocError>
    ensures { IfOk result (λ found. found.items ≡ references def.now) }
{
    let mut found = Vec::new(alloc);
    match def {
        TypeDef::Struct { params, fields, .. } => {
            add_params(&mut found, params.as_slice())?;
            add_fields(&mut found, fields.as_slice())?;
        }
        TypeDef::Enum {
            params,
            variants,
            ..
        } => {
            add_params(&mut found, params.as_slice())?;
            add_variants(&mut found, variants.as_slice())?;
        }
        TypeDef::Array { elem, .. } => found.push(*elem)?,
        TypeDef::Thin { to, .. } => found.push(*to)?,
        TypeDef::Slice { ptr, .. } | TypeDef::Str { ptr, .. } => found.push(*ptr)?,
        TypeDef::Dyn { ptr, vtable, .. } => {
            found.push(*ptr)?;
            found.push(*vtable)?;
        }
        TypeDef::FnPtr | TypeDef::CLike { .. } | TypeDef::Bytes { .. } => {}
    }
    Ok(found)
}

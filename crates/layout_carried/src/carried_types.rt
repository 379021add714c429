//! What CodeView carries of types.
ghost use Rattle.std.specs.Prelude.{◌≡◌, [], IfOk, map};
ghost use Rattle.std.specs.Option.{option_map};
ghost use Rattle.layout_carried.specs.Carried.{unsigned_of, signed_of, carried_prim, carried_tag_prim, carried_ref, carried_field, carried_variant, carried_tag, carried_type};

use layout_set::{Case, Field, Primitive, Tag, TypeDef, TypeRef, Variant};
use names::Name;
use rv_io::{List, Memory};
use std::alloc::Global;

/// The unsigned number of a pointer's size.
fn unsigned_of(pointer_size: u8) -> Primitive
    ensures { result ≡ unsigned_of pointer_size }
{
    if pointer_size == 4 {
        Primitive::U32
    } else {
        Primitive::U64
    }
}

/// The signed number of a pointer's size.
fn signed_of(pointer_size: u8) -> Primitive
    ensures { result ≡ signed_of pointer_size }
{
    if pointer_size == 4 {
        Primitive::I32
    } else {
        Primitive::I64
    }
}

/// The primitive, with a pointer's bits in place of its name.
fn carried_prim(pointer_size: u8, prim: Primitive) -> Primitive
    ensures { result ≡ carried_prim pointer_size prim }
{
    match prim {
        Primitive::Usize => unsigned_of(pointer_size),
        Primitive::Isize => signed_of(pointer_size),
        _ => prim,
    }
}

/// The same of a tag, where `u128` is in place of `i128` too.
fn carried_tag_prim(pointer_size: u8, prim: Primitive) -> Primitive
    ensures { result ≡ carried_tag_prim pointer_size prim }
{
    match prim {
        Primitive::I128 => Primitive::U128,
        _ => carried_prim(pointer_size, prim),
    }
}

/// The reference, to a number of so many bits where it is to one named for a pointer's size. Takes no memory.
pub(crate) fn carried_ref(pointer_size: u8, ty: TypeRef) -> TypeRef
    ensures { result ≡ carried_ref pointer_size ty }
{
    match ty {
        TypeRef::Prim(prim) => TypeRef::Prim(carried_prim(pointer_size, prim)),
        TypeRef::User(_) => ty,
    }
}

/// The tag as CodeView carries it, where there is one.
fn carried_tag(pointer_size: u8, tag: Option<Tag>) -> Option<Tag>
    ensures { result ≡ option_map (carried_tag pointer_size) tag }
{
    match tag {
        None => None,
        Some(tag) => Some(Tag {
            off: tag.off,
            prim: carried_tag_prim(pointer_size, tag.prim),
        }),
    }
}

/// The field with its carried type.
fn carried_field(alloc: Global, pointer_size: u8, field: &Field) -> Result<Field, Memory>
    ensures { IfOk result (λ f. f ≡ carried_field pointer_size field.now) }
{
    Ok(Field {
        name: field.name.copy(alloc)?,
        off: field.off,
        ty: carried_ref(pointer_size, field.ty),
    })
}

/// The fields with their carried types.
fn carried_fields(alloc: Global, pointer_size: u8, fields: &[Field]) -> Result<List<Field>, Memory>
    ensures { IfOk result (λ found. found ≡ map (carried_field pointer_size) fields.now) }
{
    let mut found = List::new(alloc);
    for field in fields {
        found.push(carried_field(alloc, pointer_size, field)?)?;
    }
    Ok(found)
}

/// The same case.
fn copy_case(alloc: Global, case: &Case) -> Result<Case, Memory>
    ensures { IfOk result (λ c. c ≡ case.now) }
{
    Ok(Case {
        name: case.name.copy(alloc)?,
        number: case.number,
    })
}

/// The same cases, in a list of their own.
fn copy_cases(alloc: Global, cases: &[Case]) -> Result<List<Case>, Memory>
    ensures { IfOk result (λ found. found ≡ cases.now) }
{
    let mut found = List::new(alloc);
    for case in cases {
        found.push(copy_case(alloc, case)?)?;
    }
    Ok(found)
}

/// The variant with its fields' carried types.
fn carried_variant(alloc: Global, pointer_size: u8, variant: &Variant) -> Result<Variant, Memory>
    ensures { IfOk result (λ v. v ≡ carried_variant pointer_size variant.now) }
{
    let name = variant.name.copy(alloc)?;
    Ok(Variant {
        name,
        sel: variant.sel,
        fields: carried_fields(alloc, pointer_size, variant.fields.as_slice())?,
    })
}

/// The variants with their fields' carried types.
fn carried_variants(
    alloc: Global,
    pointer_size: u8,
    variants: &[Variant],
) -> Result<List<Variant>, Memory>
    ensures { IfOk result (λ found. found ≡ map (carried_variant pointer_size) variants.now) }
{
    let mut found = List::new(alloc);
    for variant in variants {
        found.push(carried_variant(alloc, pointer_size, variant)?)?;
    }
    Ok(found)
}

/// A struct without params and align, with its fields' carried types.
fn carried_struct(
    alloc: Global,
    pointer_size: u8,
    name: &Name,
    size: u32,
    fields: &[Field],
) -> Result<TypeDef, Memory>
    ensures { IfOk result (λ t. t ≡ TypeDef.Struct name.now size 0 [] (map (carried_field pointer_size) fields.now)) }
{
    let name = name.copy(alloc)?;
    Ok(TypeDef::Struct {
        name,
        size,
        align: 0,
        params: List::new(alloc),
        fields: carried_fields(alloc, pointer_size, fields)?,
    })
}

/// An enum without params and align, with its tag and variants as CodeView carries them.
fn carried_enum(
    alloc: Global,
    pointer_size: u8,
    name: &Name,
    size: u32,
    tag: Option<Tag>,
    variants: &[Variant],
) -> Result<TypeDef, Memory>
    ensures { IfOk result (λ t. t ≡ TypeDef.Enum name.now size 0 [] (option_map (carried_tag pointer_size) tag) (map (carried_variant pointer_size) variants.now)) }
{
    let name = name.copy(alloc)?;
    Ok(TypeDef::Enum {
        name,
        size,
        align: 0,
        params: List::new(alloc),
        tag: carried_tag(pointer_size, tag),
        variants: carried_variants(alloc, pointer_size, variants)?,
    })
}

/// An enum without fields, with its carried tag and the same cases.
fn carried_c_like(
    alloc: Global,
    pointer_size: u8,
    name: &Name,
    tag: Primitive,
    cases: &[Case],
) -> Result<TypeDef, Memory>
    ensures { IfOk result (λ t. t ≡ TypeDef.CLike name.now (carried_tag_prim pointer_size tag) cases.now) }
{
    let name = name.copy(alloc)?;
    Ok(TypeDef::CLike {
        name,
        tag: carried_tag_prim(pointer_size, tag),
        cases: copy_cases(alloc, cases)?,
    })
}

/// The type as CodeView carries it.
fn carried_type(alloc: Global, pointer_size: u8, def: &TypeDef) -> Result<TypeDef, Memory>
    ensures { IfOk result (λ t. t ≡ carried_type pointer_size def.now) }
{
    match def {
        TypeDef::Struct {
            name,
            size,
            fields,
            ..
        } => carried_struct(alloc, pointer_size, name, *size, fields.as_slice()),
        TypeDef::Array { elem, count } => Ok(TypeDef::Array {
            elem: carried_ref(pointer_size, *elem),
            count: *count,
        }),
        TypeDef::Thin { kind, to } => Ok(TypeDef::Thin {
            kind: *kind,
            to: carried_ref(pointer_size, *to),
        }),
        TypeDef::Slice { name, kind, ptr } => Ok(TypeDef::Slice {
            name: name.copy(alloc)?,
            kind: *kind,
            ptr: carried_ref(pointer_size, *ptr),
        }),
        TypeDef::Str { name, kind, ptr } => Ok(TypeDef::Str {
            name: name.copy(alloc)?,
            kind: *kind,
            ptr: carried_ref(pointer_size, *ptr),
        }),
        TypeDef::Dyn {
            name,
            kind,
            ptr,
            vtable,
        } => Ok(TypeDef::Dyn {
            name: name.copy(alloc)?,
            kind: *kind,
            ptr: carried_ref(pointer_size, *ptr),
            vtable: carried_ref(pointer_size, *vtable),
        }),
        TypeDef::FnPtr => Ok(TypeDef::FnPtr),
        TypeDef::CLike { name, tag, cases } => carried_c_like(
            alloc,
            pointer_size,
            name,
            *tag,
            cases.as_slice(),
        ),
        TypeDef::Enum {
            name,
            size,
            tag,
            variants,
            ..
        } => carried_enum(alloc, pointer_size, name, *size, *tag, variants.as_slice()),
        TypeDef::Bytes { name, size, .. } => Ok(TypeDef::Bytes {
            name: name.copy(alloc)?,
            size: *size,
            align: 0,
        }),
    }
}

/// The types without their params and aligns.
pub(crate) fn carried_types(
    alloc: Global,
    pointer_size: u8,
    types: &[TypeDef],
) -> Result<List<TypeDef>, Memory>
    ensures { IfOk result (λ found. found ≡ map (carried_type pointer_size) types.now) }
{
    let mut found = List::new(alloc);
    for def in types {
        found.push(carried_type(alloc, pointer_size, def)?)?;
    }
    Ok(found)
}

//! Law 4: where the parts of a type end.
ghost use Rattle.std.specs.Prelude.{length};
ghost use Rattle.std.specs.Bool.{Decides};
ghost use Rattle.std.specs.List.{HoldsAt};
ghost use Rattle.layout_set.specs.Found.{IsFirst, Found};
ghost use Rattle.layout_set.specs.Law4.{EndsWithin, FieldsEndWithin, TagEndsWithin, VariantsEndWithin, HasPartsWithin, Law4};

use layout_set::breach::breach;
use layout_set::{CheckErr, Field, Set, Tag, TypeDef, Variant, prim_size, size_in};

/// Whether the field ends within so many bytes.
fn ends_within(ptr: u8, types: &[TypeDef], most: u32, field: &Field) -> bool
    ensures { Decides result (EndsWithin ptr types.now most field.now) }
{
    let size = size_in(ptr, types, field.ty);
    size.saturating_add(u64::from(field.off)) <= u64::from(most)
}

/// Whether each field ends within so many bytes.
fn fields_end_within(ptr: u8, types: &[TypeDef], most: u32, fields: &[Field]) -> bool
    ensures { Decides result (FieldsEndWithin ptr types.now most fields.now) }
{
    for field in fields {
        if !ends_within(ptr, types, most, field) {
            return false;
        }
    }
    true
}

/// Whether each field of each variant ends within so many bytes.
fn variants_end_within(ptr: u8, types: &[TypeDef], most: u32, variants: &[Variant]) -> bool
    ensures { Decides result (VariantsEndWithin ptr types.now most variants.now) }
{
    for variant in variants {
        if !fields_end_within(ptr, types, most, variant.fields.as_slice()) {
            return false;
        }
    }
    true
}

/// Whether the tag, where there is one, ends within so many bytes.
fn tag_ends_within(ptr: u8, most: u32, tag: Option<Tag>) -> bool
    ensures { Decides result (TagEndsWithin ptr most tag) }
{
    match tag {
        Some(tag) => u64::from(tag.off) + u64::from(prim_size(ptr, tag.prim)) <= u64::from(most),
        None => true,
    }
}

/// Whether the fields and the tag end within the type.
#[tactic(auto, unfolding(layout_set::specs::Law4::HasPartsWithin))]
fn has_parts_within(ptr: u8, types: &[TypeDef], def: &TypeDef) -> bool
    ensures { Decides result (HasPartsWithin ptr types.now def.now) }
{
    match def {
        TypeDef::Struct { size, fields, .. } => fields_end_within(
            ptr,
            types,
            *size,
            fields.as_slice(),
        ),
        TypeDef::Enum {
            size,
            tag,
            variants,
            ..
        } => {
            tag_ends_within(ptr, *size, *tag)
                && variants_end_within(ptr, types, *size, variants.as_slice())
        }
        _ => true,
    }
}

/// The first type of which law 4 is false.
fn first_4(ptr: u8, types: &[TypeDef]) -> Option<usize>
    ensures { IsFirst (HoldsAt (HasPartsWithin ptr types.now) types.now) (length types.now) result }
{
    for (i, def) in types.iter().enumerate() {
        if !has_parts_within(ptr, types, def) {
            return Some(i);
        }
    }
    None
}

/// Law 4: each field and each tag ends within its type.
pub fn law_4(set: &Set) -> Result<(), CheckErr>
    ensures { Found set.now 4 (Law4 set.now) result }
{
    breach(
        4,
        true,
        first_4(set.target.ptr, set.types.as_slice()),
        None,
        None,
    )
}

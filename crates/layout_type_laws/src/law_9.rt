//! Law 9: fields that leave the tag alone.
ghost use Rattle.std.specs.Prelude.{length};
ghost use Rattle.std.specs.Bool.{Decides};
ghost use Rattle.std.specs.List.{All, HoldsAt};
ghost use Rattle.layout_set.specs.Found.{IsFirst, Found};
ghost use Rattle.layout_set.specs.Sizes.{AreSmall};
ghost use Rattle.layout_set.specs.Law9.{LeavesTag, FieldsLeaveTag, HasTagAlone, Law9};

use layout_set::breach::breach;
use layout_set::{CheckErr, Field, Selector, Set, Tag, TypeDef, Variant, prim_size, small_size};

/// Whether the field has no byte, or none of the tag's.
fn leaves_tag(ptr: u8, types: &[TypeDef], tag: Tag, field: &Field) -> bool
    requires { AreSmall ptr types.now }
    ensures { Decides result (LeavesTag ptr types.now tag field.now) }
{
    let size = u64::from(small_size(ptr, types, field.ty));
    let (from, tag_from) = (u64::from(field.off), u64::from(tag.off));
    size == 0 || from + size <= tag_from || tag_from + u64::from(prim_size(ptr, tag.prim)) <= from
}

/// Whether each field has no byte, or none of the tag's.
fn all_leave_tag(ptr: u8, types: &[TypeDef], tag: Tag, fields: &[Field]) -> bool
    requires { AreSmall ptr types.now }
    ensures { Decides result (All (LeavesTag ptr types.now tag) fields.now) }
{
    for field in fields {
        if !leaves_tag(ptr, types, tag, field) {
            return false;
        }
    }
    true
}

/// Whether the variant is not exact, or its fields leave the tag alone.
fn fields_leave_tag(ptr: u8, types: &[TypeDef], tag: Tag, variant: &Variant) -> bool
    requires { AreSmall ptr types.now }
    ensures { Decides result (FieldsLeaveTag ptr types.now tag variant.now.sel variant.now.fields) }
{
    match variant.sel {
        Selector::Exact(_) => all_leave_tag(ptr, types, tag, variant.fields.as_slice()),
        Selector::Span(_, _) | Selector::Only => true,
    }
}

/// Whether the fields of all exact variants leave the tag alone.
fn variants_leave_tag(ptr: u8, types: &[TypeDef], tag: Tag, variants: &[Variant]) -> bool
    requires { AreSmall ptr types.now }
    ensures { Decides result (All (λ v. FieldsLeaveTag ptr types.now tag v.sel v.fields) variants.now) }
{
    for variant in variants {
        if !fields_leave_tag(ptr, types, tag, variant) {
            return false;
        }
    }
    true
}

/// Whether the type keeps law 9.
#[tactic(auto, unfolding(layout_set::specs::Law9::HasTagAlone))]
fn has_tag_alone(ptr: u8, types: &[TypeDef], def: &TypeDef) -> bool
    requires { AreSmall ptr types.now }
    ensures { Decides result (HasTagAlone ptr types.now def.now) }
{
    match def {
        TypeDef::Enum {
            tag: Some(tag),
            variants,
            ..
        } => variants_leave_tag(ptr, types, *tag, variants.as_slice()),
        _ => true,
    }
}

/// The first type of which law 9 is false.
fn first_9(ptr: u8, types: &[TypeDef]) -> Option<usize>
    requires { AreSmall ptr types.now }
    ensures { IsFirst (HoldsAt (HasTagAlone ptr types.now) types.now) (length types.now) result }
{
    for (i, def) in types.iter().enumerate() {
        if !has_tag_alone(ptr, types, def) {
            return Some(i);
        }
    }
    None
}

/// Law 9: the fields of exact variants leave the tag alone.
pub fn law_9(set: &Set) -> Result<(), CheckErr>
    requires { AreSmall set.now.target.ptr set.now.types }
    ensures { Found set.now 9 (Law9 set.now) result }
{
    breach(
        9,
        true,
        first_9(set.target.ptr, set.types.as_slice()),
        None,
        None,
    )
}

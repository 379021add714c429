//! Where the links of a record lead that may be simple pointers.
ghost use Rattle.std.specs.Prelude.{◌≡◌, ◌∷◌, [], OnOk, map, true, flat_map};
ghost use Rattle.cv_fields.specs.Seen.{fat_seen};
ghost use Rattle.cv_type_defs.specs.FieldLists.{members_of};
ghost use Rattle.cv_type_defs.specs.Fields.{field_target, fields_in};
ghost use Rattle.cv_type_defs.specs.Helpers.{helper_of, variant_members};
ghost use Rattle.cv_type_defs.specs.Links.{target};
ghost use Rattle.cv_type_defs.specs.Numbering.{is_numbered};
ghost use Rattle.cv_type_defs.specs.Unions.{variant_fields};
ghost use Rattle.cv_type_defs.specs.Uses.{field_targets, kind_uses};
ghost use Rattle.cv_type_defs.specs.FatPointers.{fat_pointer};
ghost use Rattle.cv_uses.specs.Marks.{with_mark, with_marks};
ghost use Rattle.cv_uses.specs.Places.{enum_uses, fat_uses, structure_uses, uses_at, variant_uses};

use crate::marks::Marks;
use cv_enum_helpers::{VariantField, fields_of_variant, helper_of, variant_fields};
use cv_fields::{Fat, fat_pointer, fields_of};
use cv_links::{Links, is_numbered};
use cv_type_defs::is_enum_name;
use cv_type_records::TypeKind;
use layout_set::FatContent;
use rv_io::Memory;
use std::alloc::Global;

/// Marks where the fields of a fat pointer lead that are pointers.
fn mark_fat(marks: &mut Marks, links: &Links<'_>, fat: &Fat<'_>)
    ensures { marks.new ≡ with_marks marks.old (fat_uses links.now (fat_seen fat.now)) }
{
    marks.mark(fat.first.target(links));
    if let FatContent::OfDyn = fat.content {
        marks.mark(fat.second.target(links));
    }
}

/// Marks where the fields of a structure lead, of this name and field list.
fn mark_structure(
    alloc: Global,
    marks: &mut Marks,
    links: &Links<'_>,
    place: usize,
    fields: u32,
    name: &[u8],
) -> Result<(), Memory>
    ensures { OnOk result (marks.new ≡ with_marks marks.old (structure_uses links.now (members_of links.now place fields) (fat_pointer links.now name.now (members_of links.now place fields)))) }
{
    match fat_pointer(alloc, links, name, place, fields)? {
        Some(fat) => mark_fat(marks, links, &fat),
        None => marks.mark_fields(links, fields_of(links, place, fields)),
    }
    Ok(())
}

/// Marks where the fields of a variant lead, of the enum that has this name.
fn mark_variant<'a>(marks: &mut Marks, links: &Links<'a>, name: &[u8], variant: &VariantField<'a>)
    ensures { marks.new ≡ with_marks marks.old (variant_uses links.now name.now variant.now) }
{
    let helper = helper_of(links, name, variant);
    marks.mark_fields(links, fields_of_variant(links, helper.as_ref()));
}

/// Marks where the fields of the variants lead, of the enum with this name and field list.
fn mark_enum(marks: &mut Marks, links: &Links<'_>, place: usize, fields: u32, name: &[u8])
    ensures { marks.new ≡ with_marks marks.old (enum_uses links.now name.now (members_of links.now place fields)) }
{
    for variant in variant_fields(links, place, fields) {
        mark_variant(marks, links, name, &variant);
    }
}

/// Marks where the links of a numbered record at a place lead.
fn mark_kind(
    alloc: Global,
    marks: &mut Marks,
    links: &Links<'_>,
    place: usize,
    kind: &TypeKind,
) -> Result<(), Memory>
    ensures { OnOk result (marks.new ≡ with_marks marks.old (kind_uses links.now place kind.now)) }
{
    match kind {
        TypeKind::Pointer { ty, .. } => marks.mark(links.target(place, *ty)),
        TypeKind::Array { elem, .. } => marks.mark(links.target(place, *elem)),
        TypeKind::Structure { fields, name, .. } => {
            mark_structure(alloc, marks, links, place, *fields, name.as_bytes())?;
        }
        TypeKind::Union { fields, name, .. } => {
            if is_enum_name(name.as_bytes()) {
                mark_enum(marks, links, place, *fields, name.as_bytes());
            }
        }
        _ => {}
    }
    Ok(())
}

/// Marks where the links of the record at a place lead.
pub fn mark_record(
    alloc: Global,
    marks: &mut Marks,
    links: &Links<'_>,
    place: usize,
) -> Result<(), Memory>
    ensures { OnOk result (marks.new ≡ with_marks marks.old (uses_at links.now place)) }
{
    let Some(kind) = links.kind(place) else {
        return Ok(());
    };
    if is_numbered(kind) {
        mark_kind(alloc, marks, links, place, kind)
    } else {
        Ok(())
    }
}

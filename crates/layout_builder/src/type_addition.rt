//! Types with one part more.
ghost use Rattle.std.specs.Prelude.{◌≡◌, OnOk};
ghost use Rattle.layout_lines.specs.declared.line.Line.TheVariants as lines;
ghost use Rattle.layout_builder.specs.Additions.{with_last, with_part, with_field};

use layout_lines::Line;
use layout_set::{Case, Field, Param, Selector, Tag, TypeDef, Variant};
use names::Word;
use rv_io::{List, Memory};
use std::alloc::Global;

/// Adds the part to the last type.
pub(crate) fn add_part(alloc: Global, types: &mut List<TypeDef>, part: Line) -> Result<(), Memory>
    ensures { OnOk result (types.new ≡ with_last (with_part part) types.old) }
{
    match types.last_mut() {
        Some(def) => add_part_of_type(alloc, def, part),
        None => Ok(()),
    }
}

/// Adds the part to the type, where it may be the next one.
fn add_part_of_type(alloc: Global, def: &mut TypeDef, part: Line) -> Result<(), Memory>
    ensures { OnOk result (def.new ≡ with_part part def.old) }
{
    match part {
        Line::Param(param) => add_param(def, param),
        Line::Field(field) => add_field(def, field),
        Line::Case(case) => add_case(def, case),
        Line::Tag(tag) => {
            set_tag(def, tag);
            Ok(())
        }
        Line::Variant(name, sel) => add_variant(alloc, def, name, sel),
        _ => Ok(()),
    }
}

/// Adds a parameter to a struct or an enum.
fn add_param(def: &mut TypeDef, param: Param) -> Result<(), Memory>
    ensures { OnOk result (def.new ≡ with_part (lines.Param param) def.old) }
{
    match def {
        TypeDef::Struct { params, .. } => params.push(param),
        TypeDef::Enum { params, .. } => params.push(param),
        _ => Ok(()),
    }
}

/// Adds a field to a struct, or to the last variant of an enum.
fn add_field(def: &mut TypeDef, field: Field) -> Result<(), Memory>
    ensures { OnOk result (def.new ≡ with_part (lines.Field field) def.old) }
{
    match def {
        TypeDef::Struct { fields, .. } => fields.push(field),
        TypeDef::Enum { variants, .. } => add_field_to_variants(variants, field),
        _ => Ok(()),
    }
}

/// Adds a case to an enum without fields.
fn add_case(def: &mut TypeDef, case: Case) -> Result<(), Memory>
    ensures { OnOk result (def.new ≡ with_part (lines.Case case) def.old) }
{
    match def {
        TypeDef::CLike { cases, .. } => cases.push(case),
        _ => Ok(()),
    }
}

/// Gives an enum its tag.
fn set_tag(def: &mut TypeDef, chosen: Tag)
    ensures { def.new ≡ with_part (lines.Tag chosen) def.old }
{
    if let TypeDef::Enum { tag, .. } = def {
        *tag = Some(chosen);
    }
}

/// Adds a variant without fields to an enum.
fn add_variant(alloc: Global, def: &mut TypeDef, name: Word, sel: Selector) -> Result<(), Memory>
    ensures { OnOk result (def.new ≡ with_part (lines.Variant name sel) def.old) }
{
    match def {
        TypeDef::Enum { variants, .. } => {
            let fields = List::new(alloc);
            variants.push(Variant { name, sel, fields })
        }
        _ => Ok(()),
    }
}

/// Adds the field to the last variant.
fn add_field_to_variants(variants: &mut List<Variant>, field: Field) -> Result<(), Memory>
    ensures { OnOk result (variants.new ≡ with_last (with_field field) variants.old) }
{
    match variants.last_mut() {
        Some(variant) => variant.fields.push(field),
        None => Ok(()),
    }
}

//! The variants of enums (DWARF 5, 5.7.10).
ghost use Rattle.std.specs.Prelude.{◌≡◌, IfOk, IfSome, All, map};
ghost use Rattle.dwarf_entries.specs.Enums.{fields_in, variant_of, variant_structure, variants_in};
ghost use Rattle.dwarf_types.specs.Said.{HasFields, IsVariant};
ghost use Rattle.dwarf_types.specs.Variants.{text_of_variant};

use crate::fields::fields_of;
use dwarf_dies::Die;
use dwarf_enums::{Part, variant_structure};
use dwarf_links::TypeLinks;
use dwarf_names::{blank, own_word};
use dwarf_variants::{variant_member, variants_in};
use layout_set::{Field, Variant};
use names::Word;
use rv_io::{List, Memory};
use std::alloc::Global;

/// The name of a variant, which is that of its first member.
fn variant_word(alloc: Global, variant: &Die<'_>) -> Result<Word, Memory>
    requires { IsVariant variant.now.info variant.now.die }
    ensures { IfOk result (λ word. word ≡ text_of_variant variant.now.info variant.now.die) }
{
    match variant_member(variant) {
        Some(member) => own_word(alloc, &member),
        None => blank(alloc),
    }
}

/// The fields of a variant, which are those of its structure.
fn variant_fields(
    alloc: Global,
    links: &TypeLinks<'_>,
    variant: &Die<'_>,
) -> Result<List<Field>, Memory>
    requires here { variant.now.info ≡ links.now }
    requires fields { IfSome (variant_structure links.now variant.now.die) (HasFields links.now) }
    ensures { IfOk result (λ fields. fields ≡ fields_in links.now (variant_structure links.now variant.now.die)) }
{
    match variant_structure(variant) {
        Some(structure) => fields_of(alloc, links, &structure),
        None => Ok(List::new(alloc)),
    }
}

/// A variant of an enum: its name, what chooses it, and its fields.
pub(crate) fn variant_of(
    alloc: Global,
    links: &TypeLinks<'_>,
    part: &Part<'_>,
    variant: &Die<'_>,
) -> Result<Variant, Memory>
    requires part { part.now.info ≡ links.now }
    requires here { variant.now.info ≡ links.now }
    requires variant { IsVariant links.now variant.now.die }
    ensures { IfOk result (λ v. v ≡ variant_of links.now part.now.die variant.now.die) }
{
    let name = variant_word(alloc, variant)?;
    let fields = variant_fields(alloc, links, variant)?;
    let sel = part.selector_of(variant);
    Ok(Variant { name, sel, fields })
}

/// The variants of a part, in order.
pub(crate) fn variants_of(
    alloc: Global,
    links: &TypeLinks<'_>,
    part: &Part<'_>,
) -> Result<List<Variant>, Memory>
    requires part { part.now.info ≡ links.now }
    requires variants { All (IsVariant links.now) (variants_in links.now part.now.die) }
    ensures { IfOk result (λ variants. variants ≡ map (variant_of links.now part.now.die) (variants_in links.now part.now.die)) }
{
    let mut variants = List::new(alloc);
    for entry in variants_in(part.entry()) {
        let variant = variant_of(alloc, links, part, &entry)?;
        variants.push(variant)?;
    }
    Ok(variants)
}

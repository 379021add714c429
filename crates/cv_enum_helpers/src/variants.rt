//! The members of an enum's LF_UNION that are variants, `variantN`.
ghost use Rattle.std.specs.Prelude.{◌≡◌};
ghost use Rattle.cv_type_defs.specs.FieldLists.{members_of};
ghost use Rattle.cv_type_defs.specs.Unions.{variant_fields};
ghost use Rattle.cv_enum_helpers.specs.Variants.{variant_in};

use crate::variant_numbers::variant_number;
use cv_fields::{Field, Fields, fields_of};
use cv_links::Links;
use std::marker::Model;

/// A member `variantN`, with its number. Contracts see both.
#[derive(Drop)]
pub struct VariantField<'a> {
    number: u32,
    field: Field<'a>,
}

impl<'a> Model for VariantField<'a> {
    ghost use Rattle.cv_type_defs.specs.Unions.{VariantField as Seen};

    ghost Value = { Seen };

    ghost view = { λ v. record { number = v.number; field = v.field } };
}

impl<'a> VariantField<'a> {
    /// Its number. Takes no memory.
    pub fn number(&self) -> u32
        ensures { result ≡ self.now.number }
    {
        self.number
    }

    /// The member. Takes no memory.
    pub fn field(&self) -> &Field<'a>
        ensures { result.now ≡ self.now.field }
    {
        &self.field
    }
}

/// The variant that a field is, if it is one.
fn variant_in<'a>(field: Field<'a>) -> Option<VariantField<'a>>
    ensures { result ≡ variant_in field.entry }
{
    let number = variant_number(field.name())?;
    Some(VariantField { number, field })
}

/// Variants that are still to come. Contracts see their list.
#[derive(Drop)]
pub struct Variants<'a> {
    fields: Fields<'a>,
}

impl<'a> Model for Variants<'a> {
    ghost use Rattle.std.specs.Prelude.{List};
    ghost use Rattle.cv_type_defs.specs.Unions.{VariantField};
    ghost use Rattle.cv_enum_helpers.specs.Variants.{variants_among};

    ghost Value = { List VariantField };

    ghost view = { λ v. variants_among v.fields };
}

impl<'a> Iterator for Variants<'a> {
    ghost use Rattle.std.specs.Iterator.{YieldsFirst, item_count};

    type Item = VariantField<'a>;

    ghost next_gives = { YieldsFirst (λ s. s) };

    ghost remaining = { item_count (λ s. s) };

    fn next(&mut self) -> Option<VariantField<'a>> {
        while let Some(field) = self.fields.next() {
            if let Some(variant) = variant_in(field) {
                return Some(variant);
            }
        }
        None
    }
}

/// The variants of the LF_UNION at a place, which has this index as its field list, in order. Takes no memory.
pub fn variant_fields<'a>(links: &Links<'a>, place: usize, fields: u32) -> Variants<'a>
    ensures { result ≡ variant_fields (members_of links.now place fields) }
{
    Variants {
        fields: fields_of(links, place, fields),
    }
}

//! The helpers of an enum's variants, `enum2$<X>::VariantN`, and what these lead to.
ghost use Rattle.std.specs.Prelude.{◌≡◌, option_and_then, option_copied, option_map};
ghost use Rattle.cv_type_defs.specs.Fields.{fields_in};
ghost use Rattle.cv_type_defs.specs.Helpers.{helper_of, members_at, names_target, structure_of, value_of, variant_members, variants_of};
ghost use Rattle.cv_links.specs.Seen.{target_seen};
ghost use Rattle.cv_enum_helpers.specs.Variants.{only_value};

use crate::named::{Named, helper_at, named_at, names_at};
use crate::statics::only_static;
use crate::variants::VariantField;
use cv_fields::{Field, Fields, fields_of};
use cv_links::{Leaf, Links, Target};

/// The helper of a variant of the enum that has this name. Takes no memory.
pub fn helper_of<'a>(
    links: &Links<'a>,
    name: &[u8],
    variant: &VariantField<'a>,
) -> Option<Named<'a>>
    ensures { result ≡ helper_of links.now name.now variant.now }
{
    helper_at(links, name, variant.number(), variant.field().target(links))
}

/// The one of some fields, where it is called `value`.
fn only_value<'a>(mut fields: Fields<'a>) -> Option<Field<'a>>
    ensures { result ≡ only_value fields.entry }
{
    let first = fields.next()?;
    if fields.next().is_some() {
        return None;
    }
    if first.is_named(b"value") {
        Some(first)
    } else {
        None
    }
}

/// The member `value` of a helper, where it has no other LF_MEMBER. Takes no memory.
pub fn value_of<'a>(links: &Links<'a>, helper: &Named<'a>) -> Option<Field<'a>>
    ensures { result ≡ value_of links.now helper.now }
{
    only_value(fields_of(links, helper.place(), helper.fields()))
}

/// The structure that has a variant's fields, of any name. Takes no memory.
pub fn structure_of<'a>(links: &Links<'a>, helper: &Named<'a>) -> Option<Named<'a>>
    ensures { result ≡ structure_of links.now helper.now }
{
    let value = value_of(links, helper)?;
    named_at(links, Leaf::Structure, value.target(links))
}

/// The fields of a record, if it is there.
fn fields_at<'a>(links: &Links<'a>, named: Option<Named<'a>>) -> Fields<'a>
    ensures { result ≡ fields_in (members_at links.now named.entry) }
{
    match named {
        Some(named) => fields_of(links, named.place(), named.fields()),
        None => fields_of(links, 0, 0),
    }
}

/// The structure of the fields of a variant whose helper this is, where there is one.
fn structure_by<'a>(links: &Links<'a>, helper: Option<&Named<'a>>) -> Option<Named<'a>>
    ensures { result ≡ option_and_then (structure_of links.now) (option_copied helper.entry) }
{
    structure_of(links, helper?)
}

/// The fields of a variant whose helper this is; none where there is no helper. Takes no memory.
pub fn fields_of_variant<'a>(links: &Links<'a>, helper: Option<&Named<'a>>) -> Fields<'a>
    ensures { result ≡ fields_in (variant_members links.now (option_copied helper.entry)) }
{
    fields_at(links, structure_by(links, helper))
}

/// Where the static member NAME of a helper leads, where it has one. Takes no memory.
pub fn names_target<'a>(links: &Links<'a>, helper: &Named<'a>) -> Option<Target>
    ensures { option_map target_seen result ≡ names_target links.now helper.now }
{
    let member = only_static(b"NAME", helper.members(links))?;
    Some(member.target(links))
}

/// The LF_ENUM of the variants' names, as one helper of the enum that has this name has it. Takes no memory.
pub fn variants_of<'a>(links: &Links<'a>, name: &[u8], helper: &Named<'a>) -> Option<Named<'a>>
    ensures { result ≡ variants_of links.now name.now helper.now }
{
    let to = names_target(links, helper)?;
    names_at(links, name, to)
}

//! Variant parts and their variants (DWARF 5, 5.7.10).
ghost use Rattle.std.specs.Prelude.{◌≡◌, option_map};
ghost use Rattle.dwarf_entries.specs.Counts.{is_first_part};
ghost use Rattle.dwarf_entries.specs.Dies.{is_owned_by};
ghost use Rattle.dwarf_entries.specs.EnumRules.{has_two_defaults, is_tag_member, lacks_discr};
ghost use Rattle.dwarf_entries.specs.Enums.{is_listed, is_tagless, part_of, tag_member, variant_member, variants_in};
ghost use Rattle.dwarf_dies.specs.Handles.{beside};
ghost use Rattle.dwarf_variants.specs.Counts.{are_many, has_default, is_any_listed, unlisted_in};

use crate::kinds::{members_in, parts_in, variants_in};
use dwarf_dies::Die;
use dwarf_entries::at;
use dwarf_scopes::tags::{is_member, is_part};

/// The variant part of a structure: the first below it. Takes no memory.
pub fn part_of<'a>(die: &Die<'a>) -> Option<Die<'a>>
    ensures { result ≡ option_map (beside die.now) (part_of die.now.info die.now.die) }
{
    parts_in(die).next()
}

/// The first member of a variant. Takes no memory.
pub fn variant_member<'a>(variant: &Die<'a>) -> Option<Die<'a>>
    ensures { result ≡ option_map (beside variant.now) (variant_member variant.now.info variant.now.die) }
{
    members_in(variant).next()
}

/// Whether an entry is the first variant part of its structure. Takes no memory.
pub fn is_first_part(part: &Die<'_>) -> bool
    ensures { result ≡ is_first_part part.now.info part.now.die }
{
    let Some(up) = part.parent() else {
        return false;
    };
    match part_of(&up) {
        Some(first) => part.offset() == first.offset(),
        None => false,
    }
}

/// Whether an entry is owned by this one.
fn is_owned_by(die: &Die<'_>, owner: &Die<'_>) -> bool
    ensures { result ≡ is_owned_by owner.now.die.entry.offset die.now.die.owners }
{
    match die.parent() {
        Some(up) => up.offset() == owner.offset(),
        None => false,
    }
}

/// The member of a part that its discr names. Takes no memory.
pub fn tag_member<'a>(part: &Die<'a>) -> Option<Die<'a>>
    ensures { result ≡ option_map (beside part.now) (tag_member part.now.info part.now.die) }
{
    let member = part.linked(at::DISCR)?;
    if is_member(member.what()) && is_owned_by(&member, part) {
        Some(member)
    } else {
        None
    }
}

/// Whether a member is the tag of its part. Takes no memory.
pub fn is_tag_member(member: &Die<'_>) -> bool
    ensures { result ≡ is_tag_member member.now.info member.now.die }
{
    let Some(part) = member.parent() else {
        return false;
    };
    if !is_part(part.what()) {
        return false;
    }
    match tag_member(&part) {
        Some(tag) => member.offset() == tag.offset(),
        None => false,
    }
}

/// Whether a variant lists a number. Takes no memory.
pub fn is_listed(variant: &Die<'_>) -> bool
    ensures { result ≡ is_listed variant.now.die }
{
    variant.has(at::DISCR_VALUE)
}

/// Whether a variant of the part lists a number.
fn is_any_listed(part: &Die<'_>) -> bool
    ensures { result ≡ is_any_listed part.now.info part.now.die }
{
    for variant in variants_in(part) {
        if is_listed(&variant) {
            return true;
        }
    }
    false
}

/// Whether the part has more than one variant.
fn has_many(part: &Die<'_>) -> bool
    ensures { result ≡ are_many (variants_in part.now.info part.now.die) }
{
    let mut variants = variants_in(part);
    variants.next().is_some() && variants.next().is_some()
}

/// How many variants of the part list no number; 2 stands for more.
fn unlisted(part: &Die<'_>) -> u8
    ensures { result ≡ unlisted_in part.now.info part.now.die }
{
    let mut count = 0;
    for variant in variants_in(part) {
        if !is_listed(&variant) && count < 2 {
            count += 1;
        }
    }
    count
}

/// Whether the part has no tag: it has no discr, or no variant, or just one that lists no number. Takes
/// no memory.
pub fn is_tagless(part: &Die<'_>) -> bool
    ensures { result ≡ is_tagless part.now.info part.now.die }
{
    !part.has(at::DISCR) || (!is_any_listed(part) && !has_many(part))
}

/// Whether a variant of the part lists no number. Takes no memory.
pub fn has_default(part: &Die<'_>) -> bool
    ensures { result ≡ has_default part.now.info part.now.die }
{
    unlisted(part) > 0
}

/// Whether two variants have no number of their own. Takes no memory.
pub fn has_two_defaults(part: &Die<'_>) -> bool
    ensures { result ≡ has_two_defaults part.now.info part.now.die }
{
    unlisted(part) == 2
}

/// Whether there are two variants, and no discriminant that chooses. Takes no memory.
pub fn lacks_discr(part: &Die<'_>) -> bool
    ensures { result ≡ lacks_discr part.now.info part.now.die }
{
    !part.has(at::DISCR) && has_many(part)
}

//! Structures that are fat pointers.
ghost use Rattle.std.specs.Prelude.{◌≡◌, IfOk, option_map};
ghost use Rattle.cv_type_defs.specs.FatPointers.{fat_pointer};
ghost use Rattle.cv_type_defs.specs.FieldLists.{members_of};
ghost use Rattle.cv_fields.specs.Members.{two_fields};
ghost use Rattle.cv_fields.specs.Pairs.{fat_by};
ghost use Rattle.cv_fields.specs.Seen.{fat_seen};

use crate::field::{Field, field_in};
use crate::pairs::is_fat_pair;
use crate::texts::name_of_text;
use cv_links::{Links, Members};
use layout_set::{FatContent, fat_of};
use names::PtrKind;
use rv_io::Memory;
use std::alloc::Global;

/// A fat pointer: its kind, what it leads to, and its two fields.
#[derive(Drop)]
pub struct Fat<'a> {
    pub kind: PtrKind,
    pub content: FatContent,
    pub first: Field<'a>,
    pub second: Field<'a>,
}

/// The two fields that some members are, where there are just two members, and both are fields.
fn two_fields<'a>(mut members: Members<'a>) -> Option<(Field<'a>, Field<'a>)>
    ensures { result ≡ two_fields members.entry }
{
    let first = members.next()?;
    let second = members.next()?;
    if members.next().is_some() {
        return None;
    }
    let first = field_in(&first)?;
    let second = field_in(&second)?;
    Some((first, second))
}

/// The fat pointer to this with these fields, where these are as they must be.
fn fat_by<'a>(
    links: &Links<'_>,
    fat: Option<(PtrKind, FatContent)>,
    first: Field<'a>,
    second: Field<'a>,
) -> Option<Fat<'a>>
    ensures { option_map fat_seen result ≡ fat_by links.now fat first.entry second.entry }
{
    let (kind, content) = fat?;
    if is_fat_pair(links, content, &first, &second) {
        Some(Fat {
            kind,
            content,
            first,
            second,
        })
    } else {
        None
    }
}

/// The fat pointer that an LF_STRUCTURE at a place is, which has this name and this index as its field
/// list: its name is that of a fat pointer, and the list has just the two members of that name. Takes
/// memory for the name.
pub fn fat_pointer<'a>(
    alloc: Global,
    links: &Links<'a>,
    name: &[u8],
    place: usize,
    fields: u32,
) -> Result<Option<Fat<'a>>, Memory>
    ensures { IfOk result (λ fat. option_map fat_seen fat ≡ fat_pointer links.now name.now (members_of links.now place fields)) }
{
    let Some((first, second)) = two_fields(links.members(place, fields)) else {
        return Ok(None);
    };
    let name = name_of_text(alloc, name)?;
    Ok(fat_by(links, fat_of(&name), first, second))
}

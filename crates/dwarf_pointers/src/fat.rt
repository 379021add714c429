//! Structures that are fat pointers.
ghost use Rattle.std.specs.Prelude.{◌≡◌, IfOk};
ghost use Rattle.dwarf_entries.specs.FatPairs.{is_counted, is_with_table};
ghost use Rattle.dwarf_entries.specs.Pointers.{fat_pair, fat_pointer, is_byte};

use crate::members::members_of;
use crate::pairs::pair_of;
use crate::pointers::thin_pointee;
use crate::typedefs::type_or_unit;
use dwarf_dies::Die;
use dwarf_entries::FatPair;
use dwarf_links::TypeLinks;
use dwarf_names::name_of;
use layout_set::{FatContent, Primitive, TypeDef, TypeRef, fat_of};
use names::{Name, PtrKind};
use rv_io::Memory;
use std::alloc::Global;

/// Whether a length stands beside the address.
fn is_counted(pair: Option<FatPair>) -> bool
    ensures { result ≡ is_counted pair }
{
    matches!(pair, Some(FatPair::Counted))
}

/// Whether a table of methods stands beside the address.
fn is_with_table(pair: Option<FatPair>) -> bool
    ensures { result ≡ is_with_table pair }
{
    matches!(pair, Some(FatPair::WithTable))
}

/// Whether this is the type of bytes.
fn is_byte(to: Option<TypeRef>) -> bool
    ensures { result ≡ is_byte to }
{
    matches!(to, Some(TypeRef::Prim(Primitive::U8)))
}

/// The fat pointer of a name, a kind, what it leads to and two members, where these are as they must be.
/// Takes no memory.
pub fn fat_pair(
    links: &TypeLinks<'_>,
    name: Name,
    kind: PtrKind,
    content: FatContent,
    first: &Die<'_>,
    second: &Die<'_>,
) -> Option<TypeDef>
    requires first { first.now.info ≡ links.now }
    requires second { second.now.info ≡ links.now }
    ensures { result ≡ fat_pair links.now name kind content first.now.die second.now.die }
{
    let pair = pair_of(first, second);
    match content {
        FatContent::OfSlice => {
            if is_counted(pair) && thin_pointee(links, first).is_some() {
                let ptr = type_or_unit(links, first);
                Some(TypeDef::Slice { name, kind, ptr })
            } else {
                None
            }
        }
        FatContent::OfStr => {
            if is_counted(pair) && is_byte(thin_pointee(links, first)) {
                let ptr = type_or_unit(links, first);
                Some(TypeDef::Str { name, kind, ptr })
            } else {
                None
            }
        }
        FatContent::OfDyn => {
            if is_with_table(pair)
                && (thin_pointee(links, first).is_some() && thin_pointee(links, second).is_some())
            {
                let ptr = type_or_unit(links, first);
                let vtable = type_or_unit(links, second);
                Some(TypeDef::Dyn {
                    name,
                    kind,
                    ptr,
                    vtable,
                })
            } else {
                None
            }
        }
    }
}

/// The fat pointer that a structure is, if it is one: it has no variant part, a fat name, and just the two
/// members of that name in order. Takes memory for its name and its members.
pub fn fat_pointer(
    alloc: Global,
    links: &TypeLinks<'_>,
    die: &Die<'_>,
) -> Result<Option<TypeDef>, Memory>
    requires { die.now.info ≡ links.now }
    ensures { IfOk result (λ def. def ≡ fat_pointer links.now die.now.die) }
{
    let name = name_of(alloc, die)?;
    let Some((kind, content)) = fat_of(&name) else {
        return Ok(None);
    };
    let members = members_of(alloc, die)?;
    match members.as_slice() {
        [first, second] => Ok(fat_pair(links, name, kind, content, first, second)),
        _ => Ok(None),
    }
}

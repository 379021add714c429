//! The sizes of types, each found from those of the records before it.
ghost use Rattle.std.specs.Prelude.{◌≡◌, IfOk, List, length, slice_get};
ghost use Rattle.cv_type_defs.specs.Arrays.{size_below};
ghost use Rattle.cv_type_defs.specs.Records.{kind_at};
ghost use Rattle.cv_type_defs.specs.TypeRefs.{Info};
ghost use Rattle.cv_links.specs.Seen.{target_seen};
ghost use Rattle.cv_structures.specs.steps.Sizes.{AreAllOwn, AreAllSizes, AreOwn, AreSizes, array_size, own_size, simple_size, size_at, structure_size, target_size};

use cv_fields::{fat_pointer, u32_of, u32_or_0};
use cv_links::Target;
use cv_type_defs::{is_unit_name, pointed_at, primitive_at};
use cv_type_records::TypeKind;
use cv_type_refs::TypeInfo;
use layout_set::prim_size;
use rv_io::Memory;
use std::alloc::Global;
use std::marker::Model;

/// The index of the first record; those below it are simple types.
const FIRST_INDEX: u32 = 0x1000;

/// The size of pointers.
const POINTER: u8 = 8;

/// The size of a simple type; 0 where it is none of the set.
fn simple_size(index: u32) -> u32
    ensures { result ≡ simple_size index }
{
    if let Some(prim) = primitive_at(index) {
        return prim_size(POINTER, prim);
    }
    if pointed_at(index).is_some() { 8 } else { 0 }
}

/// The size of the complete LF_STRUCTURE at a place: a fat pointer has two words.
fn structure_size(
    alloc: Global,
    info: &TypeInfo<'_>,
    place: usize,
    fields: u32,
    size: i128,
    name: &[u8],
) -> Result<u32, Memory>
    ensures { IfOk result (λ bytes. bytes ≡ structure_size info.now place fields size name.now) }
{
    if is_unit_name(name) {
        return Ok(0);
    }
    let Some(own) = u32_of(size) else {
        return Ok(0);
    };
    if fat_pointer(alloc, info.links(), name, place, fields)?.is_some() {
        Ok(16)
    } else {
        Ok(own)
    }
}

/// The size of the record at a place, which is neither an LF_MODIFIER nor an LF_ARRAY.
fn own_size(alloc: Global, info: &TypeInfo<'_>, place: usize) -> Result<u32, Memory>
    ensures { IfOk result (λ bytes. bytes ≡ own_size info.now place (kind_at info.now.records place)) }
{
    let Some(kind) = info.links().kind(place) else {
        return Ok(0);
    };
    match kind {
        TypeKind::Pointer { .. } => Ok(8),
        TypeKind::Structure {
            fields,
            size,
            name,
            ..
        } => structure_size(alloc, info, place, *fields, *size, name.as_bytes()),
        TypeKind::Union { size, .. } => Ok(u32_or_0(*size)),
        TypeKind::Enum { ty, .. } => Ok(prim_size(POINTER, info.enumeration_primitive(place, *ty))),
        _ => Ok(0),
    }
}

/// One of some numbers, if it is there.
fn number_in(numbers: &[u32], place: usize) -> Option<u32>
    ensures { result ≡ slice_get numbers.now place }
{
    numbers.get(place).copied()
}

/// The size of each record, LF_MODIFIERs and LF_ARRAYs aside.
fn read_own(alloc: Global, info: &TypeInfo<'_>) -> Result<Vec<u32>, Memory>
    ensures { IfOk result (λ own. AreAllOwn info.now own.items) }
{
    let mut own = Vec::new(alloc);
    while own.len() < info.links().len() {
        let size = own_size(alloc, info, own.len())?;
        own.push(size)?;
    }
    Ok(own)
}

/// The size of the record where a link leads.
fn target_size(own: &[u32], to: Target) -> u32
    ensures { (info : Info) → AreAllOwn info own.now → result ≡ target_size info (target_seen to) }
{
    match to {
        Target::Record(place) => number_in(own, place).unwrap_or(0),
        Target::Simple(_) => 0,
        Target::Broken(_) => 0,
    }
}

/// The size of an LF_ARRAY of elements of this size.
fn array_size(element: u32, size: i128) -> u32
    ensures { result ≡ array_size element size }
{
    if element == 0 { 0 } else { u32_or_0(size) }
}

/// The size of the type where an index leads that must be below that of the next record.
fn led(sizes: &[u32], index: u32) -> u32
    ensures { (info : Info) → AreSizes info sizes.now → result ≡ size_below info (length sizes.now) index }
{
    if index < FIRST_INDEX {
        return simple_size(index);
    }
    match number_in(sizes, (index - FIRST_INDEX) as usize) {
        Some(size) => size,
        None => simple_size(index),
    }
}

/// The size of the next record, from any record after it.
fn next_size(info: &TypeInfo<'_>, own: &[u32], sizes: &[u32]) -> u32
    requires own { AreAllOwn info.now own.now }
    requires sizes { AreSizes info.now sizes.now }
    ensures { result ≡ size_at info.now (length sizes.now) }
{
    let place = sizes.len();
    match info.links().kind(place) {
        Some(TypeKind::Modifier { ty, .. }) => led(sizes, *ty),
        Some(TypeKind::Array { elem, size, .. }) => array_size(led(sizes, *elem), *size),
        _ => target_size(own, info.links().meant(place)),
    }
}

/// The size of each record.
fn read_all(alloc: Global, info: &TypeInfo<'_>, own: &[u32]) -> Result<Vec<u32>, Memory>
    requires { AreAllOwn info.now own.now }
    ensures { IfOk result (λ sizes. AreAllSizes info.now sizes.items) }
{
    let mut sizes = Vec::new(alloc);
    while sizes.len() < info.links().len() {
        let size = next_size(info, own, sizes.as_slice());
        sizes.push(size)?;
    }
    Ok(sizes)
}

/// The sizes of all types. Contracts see the records and symbols in which they are looked up.
#[derive(Drop)]
pub struct Sizes<'a> {
    info: &'a TypeInfo<'a>,
    sizes: Vec<u32>,
}

impl<'a> Model for Sizes<'a> {
    ghost use Rattle.cv_type_defs.specs.TypeRefs.{Info};
    ghost use Rattle.cv_structures.specs.steps.Sizes.{AreAllSizes};

    ghost Value = { Info };

    ghost view = { λ s. s.info.now };

    ghost invariant = { λ s. AreAllSizes s.info.now s.sizes.items };
}

/// Finds the size of each record once. Takes memory for the count of records, and a time that grows with
/// their bytes.
pub fn read_sizes<'a>(alloc: Global, info: &'a TypeInfo<'a>) -> Result<Sizes<'a>, Memory>
    ensures { IfOk result (λ sizes. sizes ≡ info.now) }
{
    let own = read_own(alloc, info)?;
    let sizes = read_all(alloc, info, own.as_slice())?;
    Ok(Sizes { info, sizes })
}

impl<'a> Sizes<'a> {
    /// The records and symbols in which they are looked up. Takes no memory.
    pub fn info(&self) -> &'a TypeInfo<'a>
        ensures { result.now ≡ self.now }
    {
        self.info
    }

    /// The size of the type where an index leads that must be below that of the record at this place; that
    /// of an array is 0 where its element has none. Takes the same time for each index, and no memory.
    pub fn below(&self, place: usize, index: u32) -> u32
        ensures { result ≡ size_below self.now place index }
    {
        if index < FIRST_INDEX {
            return simple_size(index);
        }
        let at = (index - FIRST_INDEX) as usize;
        if at >= place {
            return simple_size(index);
        }
        number_in(self.sizes.as_slice(), at).unwrap_or(0)
    }
}

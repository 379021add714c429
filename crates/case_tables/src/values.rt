//! Values of types of the layout `l`, read from the memory that a row tells.
ghost use Rattle.std.specs.Prelude.{◌≤◌, IsTrue, IfOk, length};
ghost use Rattle.layout_set.specs.Law1.{IsWithin};
ghost use Rattle.layout_values.specs.Outcomes.{HasTexts};
ghost use Rattle.rust_value.specs.Utf8.{has_texts};

use crate::lines::{number, pair};
use crate::mistake::Mistake;
use crate::named::Named;
use crate::places::snapshot_of;
use crate::sets::set_of;
use crate::words::{first, set_file};
use bumpalo::Bump;
use image_view::Image;
use layout_model::check_sound;
use layout_set::{CheckErr, Set, TypeDef, TypeRef, size_of};
use layout_values::Outcome;
use rust_value::{Val, nodes, text, text_in};
use rv_io::Buf;
use snapshot_file::Mem;
use std::alloc::Global;
use value_reader::{OutcomeIn, read_in, read_value, select};

/// Where the values of rows are.
const PLACE: u64 = 0x1000;

/// Of `TYPE DEPTH WIDTH BYTES ADDRESS:BYTES ..` the value of the type whose image are the bytes, where memory has also the
/// bytes at the addresses: how many nodes it has, and its text; or why there is none. `-` is no bytes.
pub fn value(alloc: Global, files: &[Named], row: &str) -> Result<String, Mistake> {
    let (ty, row) = first(row)?;
    let (depth, row) = first(row)?;
    let (width, memory) = first(row)?;
    let set = set_with_static(alloc, files, ty)?;
    let memory = memory_of(alloc, memory)?;
    let depth = number::<u32>(depth)?.min(4);
    outcome_text(alloc, &set, &memory, depth, number::<u32>(width)?)
}

/// The text of what is shown of the first static.
fn outcome_text(
    alloc: Global,
    set: &Set,
    memory: &Mem,
    depth: u32,
    width: u32,
) -> Result<String, Mistake>
    requires { depth ≤ 4 }
{
    let ty = static_type(set)?;
    let size = sound_size(alloc, set, ty)?;
    let image = Image::of_mem(memory, PLACE, size);
    match outcome(alloc, set, ty, image, memory, depth, width)? {
        Outcome::Value(value) => {
            let image = Image::of_mem(memory, PLACE, size);
            let held = held_text(alloc, set, ty, image, memory, depth, width)?;
            value_text(alloc, &value, held.as_str())
        }
        Outcome::Unavailable => Ok(String::from_str(alloc, "unavailable")?),
        Outcome::Invalid => Ok(String::from_str(alloc, "invalid")?),
        Outcome::TooLarge => Ok(String::from_str(alloc, "too large")?),
    }
}

/// What is shown of an image, in a sound set.
fn outcome(
    alloc: Global,
    set: &Set,
    ty: TypeRef,
    image: Image<'_>,
    memory: &Mem,
    depth: u32,
    width: u32,
) -> Result<Outcome, Mistake>
    requires { depth ≤ 4 }
    ensures { IfOk result HasTexts }
{
    match check_sound(alloc, set) {
        Ok(()) => Ok(read_value(alloc, set, ty, image, memory, depth, width)?),
        Err(CheckErr::Breach { .. }) => Err(Mistake::NotOfTheForm),
        Err(CheckErr::Memory) => Err(Mistake::Memory),
    }
}

/// The text of what is read into an arena, in a sound set, if it is a value.
fn held_text(
    alloc: Global,
    set: &Set,
    ty: TypeRef,
    image: Image<'_>,
    memory: &Mem,
    depth: u32,
    width: u32,
) -> Result<String, Mistake>
    requires { depth ≤ 4 }
{
    let mut out = Buf::new(alloc);
    let bump = Bump::new(alloc);
    match check_sound(alloc, set) {
        Ok(()) => match read_in(&bump, set, ty, image, memory, depth, width)? {
            OutcomeIn::Value(value) => text_in(&value, &mut out)?,
            OutcomeIn::Unavailable | OutcomeIn::Invalid | OutcomeIn::TooLarge => {}
        },
        Err(CheckErr::Breach { .. }) => return Err(Mistake::NotOfTheForm),
        Err(CheckErr::Memory) => return Err(Mistake::Memory),
    }
    Ok(String::from_utf8_lossy(alloc, out.as_bytes())?)
}

/// How many nodes a value has, and its text; another text that the value has in an arena comes after it.
fn value_text(alloc: Global, value: &Val, held: &str) -> Result<String, Mistake>
    requires { IsTrue (has_texts value.now) }
{
    let mut out = Buf::new(alloc);
    text(value, &mut out)?;
    let count = nodes(value);
    let shown = String::from_utf8_lossy(alloc, out.as_bytes())?;
    if shown.as_str() == held {
        Ok(format!(in alloc; "{count} {shown}")?)
    } else {
        Ok(format!(in alloc; "{count} {shown}, in an arena {held}")?)
    }
}

/// Of `TYPE` its size.
pub fn size(alloc: Global, files: &[Named], ty: &str) -> Result<String, Mistake> {
    let set = set_with_static(alloc, files, ty)?;
    let size = sound_size(alloc, &set, static_type(&set)?)?;
    Ok(format!(in alloc; "{size}")?)
}

/// Of `NUMBER` the variant of type 0 that the number of a tag chooses, or `none`.
pub fn variant(alloc: Global, files: &[Named], row: &str) -> Result<String, Mistake> {
    let set = set_of(alloc, set_file(files, "l")?)?;
    let Some(TypeDef::Enum { variants, .. }) = set.types.as_slice().first() else {
        return Err(Mistake::NotOfTheForm);
    };
    match select(variants, number::<u128>(row)?) {
        Some(i) => match variants.as_slice().get(i as usize) {
            Some(variant) => Ok(String::from_utf8_lossy(alloc, variant.name.as_bytes())?),
            None => Err(Mistake::NotOfTheForm),
        },
        None => Ok(String::from_str(alloc, "none")?),
    }
}

/// The layout `l` with a static of this type.
fn set_with_static(alloc: Global, files: &[Named], ty: &str) -> Result<Set, Mistake> {
    let mut layout = Vec::from_slice(alloc, set_file(files, "l")?)?;
    let line = format!(in alloc; "static {PLACE:#x} {ty} a\n")?;
    layout.extend_from_slice(line.as_bytes())?;
    set_of(alloc, layout.as_slice())
}

/// The type of the first static.
fn static_type(set: &Set) -> Result<TypeRef, Mistake> {
    match set.statics.as_slice().first() {
        Some(fixed) => Ok(fixed.ty),
        None => Err(Mistake::NotOfTheForm),
    }
}

/// The memory of `BYTES ADDRESS:BYTES ..`, the first at `PLACE`.
fn memory_of(alloc: Global, memory: &str) -> Result<Mem, Mistake> {
    let mut file = String::from_str(alloc, "rdbg-snapshot 1\npc 0x0\n")?;
    for (i, part) in memory.split(' ').enumerate() {
        if i > 0 {
            let (at, bytes) = pair(part.split_once(':'))?;
            writeln!(file, "mem {at} {bytes}")?;
        } else if part != "-" {
            writeln!(file, "mem {PLACE:#x} {part}")?;
        }
    }
    Ok(snapshot_of(alloc, file.as_bytes())?.mem)
}

/// Whether the type is one of the set.
fn is_there(set: &Set, ty: TypeRef) -> bool
    ensures { IsTrue result → IsWithin (length set.now.types) ty }
{
    match ty {
        TypeRef::Prim(_) => true,
        TypeRef::User(i) => (i as usize) < set.types.as_slice().len(),
    }
}

/// The size of a type of a sound set.
fn sound_size(alloc: Global, set: &Set, ty: TypeRef) -> Result<u32, Mistake> {
    if !is_there(set, ty) {
        return Err(Mistake::NotOfTheForm);
    }
    match check_sound(alloc, set) {
        Ok(()) => Ok(size_of(set, ty)),
        Err(CheckErr::Breach { .. }) => Err(Mistake::NotOfTheForm),
        Err(CheckErr::Memory) => Err(Mistake::Memory),
    }
}

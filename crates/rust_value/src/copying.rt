//! Values of an arena, copied out of it.
ghost use Rattle.std.specs.Prelude.{◌≡◌, map, IfOk};
ghost use Rattle.names.specs.Words.{IsWord};
ghost use Rattle.rust_value.specs.Held.{value_of, part_of, led};
ghost use Rattle.rust_value.specs.Named.{HasWords, AreWords, names_of, part_names, together};

use crate::held::{PartIn, ValIn};
use crate::value::{Part, Val};
use names::{NameErr, Word};
use rv_io::{Boxed, List, Memory, Text};
use std::alloc::Global;

/// The value that one in an arena stands for, each of whose names is a word.
#[cycle(copying)]
#[tactic(auto, using(crate::proofs::HeldLevels::value_pointer, crate::proofs::HeldLevels::value_slice, crate::proofs::HeldLevels::held_names_pointer, crate::proofs::HeldLevels::held_names_slice))]
pub fn copy_out(alloc: Global, val: &ValIn<'_>) -> Result<Val, Memory>
    requires { HasWords (value_of val.now) }
    ensures { IfOk result (λ copy. copy ≡ value_of val.now) }
{
    match *val {
        ValIn::Unit => Ok(Val::Unit),
        ValIn::Bool(b) => Ok(Val::Bool(b)),
        ValIn::Char(c) => Ok(Val::Char(c)),
        ValIn::Unsigned(n) => Ok(Val::Unsigned(n)),
        ValIn::Signed(n) => Ok(Val::Signed(n)),
        ValIn::Float32(bits) => Ok(Val::Float32(bits)),
        ValIn::Float64(bits) => Ok(Val::Float64(bits)),
        ValIn::Fields(parts) => Ok(Val::Fields(copy_parts(alloc, parts)?)),
        ValIn::Variant(name, parts) => {
            Ok(Val::Variant(copy_name(alloc, name)?, copy_parts(alloc, parts)?))
        }
        ValIn::Seq(len, shown) => Ok(Val::Seq(len, copy_values(alloc, shown)?)),
        ValIn::Pointer(kind, at, None) => Ok(Val::Pointer(kind, at, None)),
        ValIn::Pointer(kind, at, Some(to)) => {
            Ok(Val::Pointer(kind, at, Some(copy_content(alloc, to)?)))
        }
        ValIn::Slice(kind, at, len, None) => Ok(Val::Slice(kind, at, len, None)),
        ValIn::Slice(kind, at, len, Some(to)) => {
            Ok(Val::Slice(kind, at, len, Some(copy_content(alloc, to)?)))
        }
        ValIn::Str(kind, at, len, text) => Ok(Val::Str(kind, at, len, copy_text(alloc, text)?)),
        ValIn::Dyn(kind, at, vtable) => Ok(Val::Dyn(kind, at, vtable)),
        ValIn::Function(at) => Ok(Val::Function(at)),
        ValIn::Bytes(bytes) => Ok(Val::Bytes(Text::from_bytes(alloc, bytes)?)),
    }
}

/// The word with these bytes.
fn copy_name(alloc: Global, name: &[u8]) -> Result<Word, Memory>
    requires { IsWord name.now }
    ensures { IfOk result (λ word. word ≡ name.now) }
{
    match Word::new(alloc, name) {
        Ok(word) => Ok(word),
        Err(NameErr::BadName { .. }) => unreachable!(),
        Err(NameErr::Memory) => Err(Memory),
    }
}

/// The parts that these stand for.
#[cycle(copying)]
fn copy_parts(alloc: Global, parts: &[PartIn<'_>]) -> Result<List<Part>, Memory>
    requires { AreWords (together (map part_names (map part_of parts.now))) }
    ensures { IfOk result (λ copies. copies ≡ map part_of parts.now) }
{
    let mut copies = List::new(alloc);
    for part in parts {
        copies.push(copy_part(alloc, part)?)?;
    }
    Ok(copies)
}

/// The part that one stands for.
#[cycle(copying)]
#[tactic(auto, using(crate::proofs::HeldLevels::part_value, crate::proofs::HeldLevels::held_part_names))]
fn copy_part(alloc: Global, part: &PartIn<'_>) -> Result<Part, Memory>
    requires { AreWords (part_names (part_of part.now)) }
    ensures { IfOk result (λ copy. copy ≡ part_of part.now) }
{
    Ok(Part {
        name: copy_name(alloc, part.name)?,
        val: copy_out(alloc, &part.val)?,
    })
}

/// The values that these stand for.
#[cycle(copying)]
fn copy_values(alloc: Global, values: &[ValIn<'_>]) -> Result<List<Val>, Memory>
    requires { AreWords (together (map names_of (map value_of values.now))) }
    ensures { IfOk result (λ copies. copies ≡ map value_of values.now) }
{
    let mut copies = List::new(alloc);
    for value in values {
        copies.push(copy_out(alloc, value)?)?;
    }
    Ok(copies)
}

/// The value that one stands for, to which a pointer leads.
#[cycle(copying)]
fn copy_content(alloc: Global, to: &ValIn<'_>) -> Result<Boxed<Val>, Memory>
    requires { HasWords (value_of to.now) }
    ensures { IfOk result (λ copy. copy ≡ value_of to.now) }
{
    Ok(Boxed::new(alloc, copy_out(alloc, to)?)?)
}

/// A copy of the text.
fn copy_text(alloc: Global, text: Option<&[u8]>) -> Result<Option<Text>, Memory>
    ensures { IfOk result (λ copy. copy ≡ led text.entry) }
{
    match text {
        None => Ok(None),
        Some(text) => Ok(Some(Text::from_bytes(alloc, text)?)),
    }
}

//! Lengths of derived names in the spelling of Rust.
ghost use Rattle.std.specs.Prelude.{◌≡◌, IfOk, length, decimal};
ghost use Rattle.type_names.specs.RustText.{rust_text};
ghost use Rattle.layout_set.specs.DerivedNames.{prim_name};
ghost use Rattle.layout_name_laws.specs.NameLengths.{over, ended, own_text, rust_mark, rust_first, rust_firsts};

use crate::name_lengths::NameLength;
use crate::spelled::rust_bytes;
use layout_set::{Primitive, TypeDef, TypeRef};
use names::PtrKind;
use rv_io::Memory;
use std::alloc::Global;

/// How many bytes the Rust name of a primitive has.
#[tactic(auto, using(crate::proofs::RustLinks::prim_lens))]
fn prim_len(prim: Primitive) -> u32
    ensures { result ≡ length (rust_text (prim_name prim)) }
{
    match prim {
        Primitive::Unit | Primitive::I8 | Primitive::U8 => 2,
        Primitive::Bool | Primitive::Char | Primitive::I128 | Primitive::U128 => 4,
        Primitive::Isize | Primitive::Usize => 5,
        _ => 3,
    }
}

/// The length over the name of what is referred to, so many bytes more.
fn over(to: TypeRef, more: u32) -> NameLength
    ensures { result ≡ over rust_text to more }
{
    match to {
        TypeRef::Prim(prim) => NameLength {
            to: None,
            len: more.saturating_add(prim_len(prim)).min(1001),
        },
        TypeRef::User(i) => NameLength {
            to: Some(i),
            len: more.min(1001),
        },
    }
}

/// How many digits a number has.
pub(crate) fn digits(n: u64) -> u32
    ensures { result ≡ length (decimal n) }
{
    let mut buffer = itoa::Buffer::new();
    buffer.format(n).len() as u32
}

/// How many bytes a pointer's Rust name has more than that of what it leads to.
fn mark(kind: PtrKind) -> u32
    ensures { result ≡ rust_mark kind }
{
    match kind {
        PtrKind::Ref => 1,
        PtrKind::RefMut | PtrKind::Mut => 5,
        PtrKind::Const => 7,
        PtrKind::Boxed => 41,
    }
}

/// A name that ends, whose length is counted up to 1,001.
pub(crate) fn ended(text: &[u8]) -> NameLength
    ensures { result ≡ ended text.now }
{
    NameLength {
        to: None,
        len: text.len().min(1001) as u32,
    }
}

/// The length of a type's Rust name, up to the name of what it leads to.
#[tactic(auto, using(crate::proofs::RustLinks::function_len))]
fn first(alloc: Global, def: &TypeDef) -> Result<NameLength, Memory>
    ensures { IfOk result (λ e. e ≡ rust_first (own_text rust_text def.now) def.now) }
{
    match def {
        TypeDef::Array { elem, count } => Ok(over(*elem, digits(*count).saturating_add(4))),
        TypeDef::Thin { kind, to } => Ok(over(*to, mark(*kind))),
        TypeDef::FnPtr => Ok(ended(b"fn()")),
        TypeDef::Struct { name, .. }
        | TypeDef::Slice { name, .. }
        | TypeDef::Str { name, .. }
        | TypeDef::Dyn { name, .. }
        | TypeDef::CLike { name, .. }
        | TypeDef::Enum { name, .. }
        | TypeDef::Bytes { name, .. } => Ok(ended(rust_bytes(alloc, name)?.as_slice())),
    }
}

/// The first length of each type.
pub(crate) fn rust_firsts(alloc: Global, types: &[TypeDef]) -> Result<Vec<NameLength>, Memory>
    ensures { IfOk result (λ v. v.items ≡ rust_firsts types.now) }
{
    let mut table = Vec::with_capacity(alloc, types.len())?;
    for def in types {
        table.push(first(alloc, def)?)?;
    }
    Ok(table)
}

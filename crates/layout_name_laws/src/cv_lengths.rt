//! Lengths of derived names in the spelling of CodeView.
ghost use Rattle.std.specs.Prelude.{◌≡◌, IfOk, length, map};
ghost use Rattle.type_names.specs.CvText.{cv_text, ends_closed};
ghost use Rattle.layout_set.specs.DerivedNames.{prim_name};
ghost use Rattle.layout_name_laws.specs.NameLengths.{over, own_text, cv_mark, cv_first, cv_firsts, closes, closes_def};

use crate::name_lengths::NameLength;
use crate::rust_lengths::{digits, ended};
use crate::spelled::cv_bytes;
use layout_set::{Primitive, TypeDef, TypeRef};
use names::PtrKind;
use rv_io::Memory;
use std::alloc::Global;

/// How many bytes the CodeView name of a primitive has.
#[tactic(auto, using(crate::proofs::CvLinks::prim_lens))]
fn prim_len(prim: Primitive) -> u32
    ensures { result ≡ length (cv_text (prim_name prim)) }
{
    match prim {
        Primitive::I8 | Primitive::U8 => 2,
        Primitive::Bool | Primitive::Char | Primitive::I128 | Primitive::U128 => 4,
        Primitive::Isize | Primitive::Usize => 5,
        Primitive::Unit => 8,
        _ => 3,
    }
}

/// The length over the name of what is referred to, so many bytes more.
fn over(to: TypeRef, more: u32) -> NameLength
    ensures { result ≡ over cv_text to more }
{
    match to {
        TypeRef::Prim(prim) => NameLength {
            to: None,
            len: more.saturating_add(prim_len(prim)).min(1001),
        },
        TypeRef::User(i) => NameLength {
            to: Some(i),
            len: more.min(1001),
        },
    }
}

/// What a pointer adds, and a space where what it leads to ends with `>`.
fn mark(closed: bool, kind: PtrKind) -> u32
    ensures { result ≡ cv_mark closed kind }
{
    let space = if closed { 1 } else { 0 };
    match kind {
        PtrKind::Ref => 6 + space,
        PtrKind::RefMut | PtrKind::Mut => 10 + space,
        PtrKind::Const => 12 + space,
        PtrKind::Boxed => 40,
    }
}

/// Whether the text ends with `>`.
#[tactic(auto, using(crate::proofs::CvEnds::ends_by_last))]
fn ends_closed(text: &[u8]) -> bool
    ensures { result ≡ ends_closed text.now }
{
    if text.is_empty() {
        return false;
    }
    text[text.len() - 1] == b'>'
}

/// Whether the derived name of a type ends with `>`.
fn closes_def(alloc: Global, def: &TypeDef) -> Result<bool, Memory>
    ensures { IfOk result (λ closed. closed ≡ closes_def def.now) }
{
    match def {
        TypeDef::Array { .. } | TypeDef::Thin { .. } | TypeDef::FnPtr => Ok(true),
        TypeDef::Struct { name, .. }
        | TypeDef::Slice { name, .. }
        | TypeDef::Str { name, .. }
        | TypeDef::Dyn { name, .. }
        | TypeDef::CLike { name, .. }
        | TypeDef::Enum { name, .. }
        | TypeDef::Bytes { name, .. } => Ok(ends_closed(cv_bytes(alloc, name)?.as_slice())),
    }
}

/// Of each type, whether its CodeView name ends with `>`.
fn all_close(alloc: Global, types: &[TypeDef]) -> Result<Vec<bool>, Memory>
    ensures { IfOk result (λ v. v.items ≡ map closes_def types.now) }
{
    let mut closed = Vec::with_capacity(alloc, types.len())?;
    for def in types {
        closed.push(closes_def(alloc, def)?)?;
    }
    Ok(closed)
}

/// Whether the CodeView name of what is referred to ends with `>`.
#[tactic(auto, using(crate::proofs::CvEnds::closes_prim, crate::proofs::CvEnds::closes_user))]
fn closes(types: &[TypeDef], closed: &[bool], to: TypeRef) -> bool
    requires { closed.now ≡ map closes_def types.now }
    ensures { result ≡ closes types.now to }
{
    match to {
        TypeRef::Prim(prim) => matches!(prim, Primitive::Unit),
        TypeRef::User(i) => match closed.get(i as usize) {
            Some(closed) => *closed,
            None => false,
        },
    }
}

/// The length of a type's CodeView name, up to the name of what it leads to.
fn first(
    alloc: Global,
    types: &[TypeDef],
    closed: &[bool],
    def: &TypeDef,
) -> Result<NameLength, Memory>
    requires { closed.now ≡ map closes_def types.now }
    ensures { IfOk result (λ e. e ≡ cv_first (own_text cv_text def.now) (closes types.now) def.now) }
{
    match def {
        TypeDef::Array { elem, count } => Ok(over(*elem, digits(*count).saturating_add(9))),
        TypeDef::Thin { kind, to } => Ok(over(*to, mark(closes(types, closed, *to), *kind))),
        TypeDef::FnPtr => Ok(ended(b"fn$<tuple$<> >")),
        TypeDef::Struct { name, .. }
        | TypeDef::Slice { name, .. }
        | TypeDef::Str { name, .. }
        | TypeDef::Dyn { name, .. }
        | TypeDef::CLike { name, .. }
        | TypeDef::Enum { name, .. }
        | TypeDef::Bytes { name, .. } => Ok(ended(cv_bytes(alloc, name)?.as_slice())),
    }
}

/// The first length of each type.
pub(crate) fn cv_firsts(alloc: Global, types: &[TypeDef]) -> Result<Vec<NameLength>, Memory>
    ensures { IfOk result (λ v. v.items ≡ cv_firsts types.now) }
{
    let closed = all_close(alloc, types)?;
    let mut table = Vec::with_capacity(alloc, types.len())?;
    for def in types {
        table.push(first(alloc, types, closed.as_slice(), def)?)?;
    }
    Ok(table)
}

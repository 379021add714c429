//! Copies of names.
ghost use Rattle.std.specs.Prelude.{◌≡◌, IfOk};

use crate::name::{Name, PtrKind, Seg};
use crate::parts::with_room;
use crate::word::Word;
use rv_io::{Boxed, List, Memory, Text};
use std::alloc::Global;

impl Name {
    /// A copy of the name, with the names in it.
    pub fn copy(&self, alloc: Global) -> Result<Name, Memory>
        ensures { IfOk result (λ name. name ≡ self.now) }
    {
        copy_name(alloc, self)
    }
}

/// The name, and the names in it, once more.
#[cycle(copying)]
fn copy_name(alloc: Global, name: &Name) -> Result<Name, Memory>
    ensures { IfOk result (λ copy. copy ≡ name.now) }
{
    match name {
        Name::Path(segs) => Ok(Name::Path(copy_segs(alloc, segs.as_slice())?)),
        Name::Pointer(kind, to) => copy_pointer(alloc, *kind, to.get()),
        Name::Slice(item) => Ok(Name::Slice(copy_boxed(alloc, item.get())?)),
        Name::Array(item, count) => Ok(Name::Array(copy_boxed(alloc, item.get())?, *count)),
        Name::Tuple(parts) => Ok(Name::Tuple(copy_names(alloc, parts.as_slice())?)),
        Name::Str => Ok(Name::Str),
        Name::Dyn(members) => Ok(Name::Dyn(copy_names(alloc, members.as_slice())?)),
        Name::Fn(params, to) => {
            let params = copy_names(alloc, params.as_slice())?;
            Ok(Name::Fn(params, copy_boxed(alloc, to.get())?))
        }
        Name::Number(minus, number) => Ok(Name::Number(*minus, *number)),
        Name::Bind(word, to) => copy_bind(alloc, word, to.get()),
        Name::Raw(text) => Ok(Name::Raw(Text::from_bytes(alloc, text.as_bytes())?)),
    }
}

/// A pointer of the kind to a copy of the name.
#[cycle(copying)]
fn copy_pointer(alloc: Global, kind: PtrKind, to: &Name) -> Result<Name, Memory>
    ensures { IfOk result (λ copy. copy ≡ Name.Pointer kind to.now) }
{
    Ok(Name::Pointer(kind, copy_boxed(alloc, to)?))
}

/// A binding of a copy of the word to a copy of the name.
#[cycle(copying)]
fn copy_bind(alloc: Global, word: &Word, to: &Name) -> Result<Name, Memory>
    ensures { IfOk result (λ copy. copy ≡ Name.Bind word.now to.now) }
{
    let word = word.copy(alloc)?;
    Ok(Name::Bind(word, copy_boxed(alloc, to)?))
}

/// A copy of the name in a box.
#[cycle(copying)]
fn copy_boxed(alloc: Global, name: &Name) -> Result<Boxed<Name>, Memory>
    ensures { IfOk result (λ copy. copy ≡ name.now) }
{
    Boxed::new(alloc, copy_name(alloc, name)?)
}

/// The segment, and the names in it, once more.
#[cycle(copying)]
fn copy_seg(alloc: Global, seg: &Seg) -> Result<Seg, Memory>
    ensures { IfOk result (λ copy. copy ≡ seg.now) }
{
    let word = seg.word.copy(alloc)?;
    Ok(Seg {
        word,
        number: seg.number,
        args: copy_names(alloc, seg.args.as_slice())?,
    })
}

/// A copy of each segment, in order.
#[cycle(copying)]
fn copy_segs(alloc: Global, segs: &[Seg]) -> Result<List<Seg>, Memory>
    ensures { IfOk result (λ copies. copies ≡ segs.now) }
{
    let mut copies = with_room(alloc, segs.len());
    for seg in segs {
        copies.push(copy_seg(alloc, seg)?)?;
    }
    Ok(copies)
}

/// A copy of each name, in order.
#[cycle(copying)]
fn copy_names(alloc: Global, names: &[Name]) -> Result<List<Name>, Memory>
    ensures { IfOk result (λ copies. copies ≡ names.now) }
{
    let mut copies = with_room(alloc, names.len());
    for name in names {
        copies.push(copy_name(alloc, name)?)?;
    }
    Ok(copies)
}

//! Sets of types, statics and functions, as layout files spell them.
ghost use Rattle.std.specs.Prelude.{◌≡◌, ◌++◌, IfOk};
ghost use Rattle.layout_set.specs.IsSet.{IsSet};

use crate::mistake::Mistake;
use crate::named::Named;
use crate::words::{first, set_file};
use layout_carried::cv_part;
use layout_file::LayoutErr;
use layout_model::check;
use layout_set::{CheckErr, Item, Set};
use rv_io::{Buf, List};
use std::alloc::Global;

/// The set that the layout file spells.
pub fn set_of(alloc: Global, file: &[u8]) -> Result<Set, Mistake>
    ensures { IfOk result IsSet }
{
    match layout_file::read(alloc, file) {
        Ok(set) => Ok(set),
        Err(LayoutErr::Memory) => Err(Mistake::Memory),
        Err(_) => Err(Mistake::NotOfTheForm),
    }
}

/// Of the name of a layout file the text of the part of its set that CodeView carries.
pub fn carried(alloc: Global, files: &[Named], name: &str) -> Result<String, Mistake> {
    let set = set_of(alloc, set_file(files, name)?)?;
    match check(alloc, &set) {
        Ok(()) => {
            let part = cv_part(alloc, &set)?;
            let mut out = Buf::new(alloc);
            layout_file::write(&part, &mut out)?;
            Ok(String::from_utf8_lossy(alloc, out.as_bytes())?)
        }
        Err(e) => verdict(alloc, Err(e)),
    }
}

/// Of `LAYOUT LAYOUT` what the laws say of the first, with the types, statics and functions of the second after its own.
pub fn joined(alloc: Global, files: &[Named], row: &str) -> Result<String, Mistake> {
    let (front, back) = first(row)?;
    let front = set_of(alloc, set_file(files, front)?)?;
    let back = set_of(alloc, set_file(files, back)?)?;
    let set = join(front, back)?;
    verdict(alloc, check(alloc, &set))
}

/// The items of both lists, in order.
fn appended<T: Drop>(front: List<T>, back: List<T>) -> Result<List<T>, Mistake>
    ensures { IfOk result (λ all. all ≡ front ++ back) }
{
    let mut items = front.into_vec();
    items.append(&mut back.into_vec())?;
    Ok(List::from_vec(items))
}

/// The first set with the types, statics and functions of the second after its own.
fn join(front: Set, back: Set) -> Result<Set, Mistake>
    requires front { IsSet front }
    requires back { IsSet back }
    ensures { IfOk result IsSet }
{
    let types = appended(front.types, back.types)?;
    let statics = appended(front.statics, back.statics)?;
    let funcs = appended(front.funcs, back.funcs)?;
    Ok(Set {
        target: front.target,
        types,
        statics,
        funcs,
    })
}

/// `no breach`, or the law that fails and where.
fn verdict(alloc: Global, checked: Result<(), CheckErr>) -> Result<String, Mistake> {
    match checked {
        Ok(()) => Ok(String::from_str(alloc, "no breach")?),
        Err(CheckErr::Memory) => Err(Mistake::Memory),
        Err(CheckErr::Breach { law, at }) => Ok(match at {
            Item::Whole => format!(in alloc; "breach law {law} at set")?,
            Item::Def(i) => format!(in alloc; "breach law {law} at type {i}")?,
            Item::Static(i) => format!(in alloc; "breach law {law} at static {i}")?,
            Item::Func(i) => format!(in alloc; "breach law {law} at fn {i}")?,
        }),
    }
}

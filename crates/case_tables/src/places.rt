//! Expressions and places, spelled as in a layout file, over the snapshot `s`.
use crate::lines::number;
use crate::mistake::Mistake;
use crate::named::Named;
use crate::words::set_file;
use expr_eval::{Ops, Spot, eval};
use image_view::Image;
use layout_file::LayoutErr;
use layout_set::{Entry, Loc, Place, Set};
use rv_io::List;
use snapshot_file::{SnapErr, Snapshot};
use std::alloc::Global;
use value_reader::locate;

/// The lines of a layout up to the entries of a variable.
const VARIABLE: &str = "rdbg-layout 1\ntarget 8\nfn none a\nscope 0\nvar x u8\n";

/// The line of the first entry.
const FIRST_ENTRY: u32 = 6;

/// The rule that operations break which make no expression.
const NO_EXPRESSION: u8 = 7;

/// What the operations of a row give: `address H`, `number H`, or `nothing` where something is missing; `no expression`
/// where they make none.
pub fn result(alloc: Global, files: &[Named], operations: &str) -> Result<String, Mistake> {
    let snapshot = snapshot_of(alloc, set_file(files, "s")?)?;
    let layout = format!(in alloc; "{VARIABLE}at 0x0 0x1 expr {operations}\n")?;
    match layout_file::read(alloc, layout.as_bytes()) {
        Ok(set) => result_text(alloc, first_expression(&set), &snapshot),
        Err(LayoutErr::Memory) => Err(Mistake::Memory),
        Err(
            LayoutErr::BadLine {
                line: FIRST_ENTRY,
                rule: NO_EXPRESSION,
            },
        ) => Ok(String::from_str(alloc, "no expression")?),
        Err(_) => Err(Mistake::NotOfTheForm),
    }
}

/// What an expression gives.
fn result_text(alloc: Global, ops: Option<&Ops>, snapshot: &Snapshot) -> Result<String, Mistake> {
    let ops = ops.ok_or(Mistake::NotOfTheForm)?;
    Ok(match eval(ops, snapshot) {
        Some(Spot::Address(at)) => format!(in alloc; "address {at:#x}")?,
        Some(Spot::Number(n)) => format!(in alloc; "number {n:#x}")?,
        None => String::from_str(alloc, "nothing")?,
    })
}

/// The expression of the first entry.
fn first_expression(set: &Set) -> Option<&Ops> {
    match &entries_of(set)?.as_slice().first()?.loc {
        Loc::Whole(Place::Expr(ops)) => Some(ops),
        _ => None,
    }
}

/// The entries of the first variable.
fn entries_of(set: &Set) -> Option<&List<Entry>> {
    let func = set.funcs.as_slice().first()?;
    let scope = func.scopes.as_slice().first()?;
    Some(&scope.vars.as_slice().first()?.entries)
}

/// Of `SIZE LINE / LINE ..` the bytes of a variable of this size whose entries have these lines: two digits for each, and two
/// dots for each that is missing; `none` where no entry contains the program counter.
pub fn bytes(alloc: Global, files: &[Named], row: &str) -> Result<String, Mistake> {
    let snapshot = snapshot_of(alloc, set_file(files, "s")?)?;
    let mut layout = String::from_str(alloc, VARIABLE)?;
    let (size, lines) = row.split_once(' ').unwrap_or((row, ""));
    for line in lines.split(" / ").filter(|line| !line.is_empty()) {
        writeln!(layout, "{line}")?;
    }
    match layout_file::read(alloc, layout.as_bytes()) {
        Ok(set) => bytes_text(alloc, &set, number::<u32>(size)?, &snapshot),
        Err(LayoutErr::Memory) => Err(Mistake::Memory),
        Err(_) => Err(Mistake::NotOfTheForm),
    }
}

/// The bytes of the first variable.
fn bytes_text(alloc: Global, set: &Set, size: u32, snapshot: &Snapshot) -> Result<String, Mistake> {
    let entries = entries_of(set).ok_or(Mistake::NotOfTheForm)?;
    match locate(alloc, entries, size, snapshot)? {
        Some(found) => picture(alloc, &found.image()),
        None => Ok(String::from_str(alloc, "none")?),
    }
}

/// Two digits for each byte, and two dots for each that is missing.
fn picture(alloc: Global, image: &Image<'_>) -> Result<String, Mistake> {
    let mut text = String::new(alloc);
    for i in 0..image.len() {
        match image.part(i, 1).number(0, 1) {
            Some(byte) => write!(text, "{byte:02x}")?,
            None => text.push_str("..")?,
        }
    }
    Ok(text)
}

/// The snapshot that the file spells.
pub fn snapshot_of(alloc: Global, file: &[u8]) -> Result<Snapshot, Mistake> {
    match snapshot_file::read(alloc, file) {
        Ok(snapshot) => Ok(snapshot),
        Err(SnapErr::Memory) => Err(Mistake::Memory),
        Err(_) => Err(Mistake::NotOfTheForm),
    }
}

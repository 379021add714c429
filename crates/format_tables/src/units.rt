//! Units of `.debug_info`, with their entries.
use crate::shown::{or_none, part};
use case_words::mistake::Mistake;
use case_words::named::Named;
use case_words::words::{bytes_of, first};
use dwarf_units::{UnitHeader, Units, UnitsErr, read_units};
use entry_tree::{Node, Tree};
use std::alloc::Global;

/// Of `ABBREVIATIONS INFO` the units, or the error. A unit is `OFFSET to END, table OFFSET of COUNT:` and its entries, each as
/// `NUMBER under PARENT at OFFSET TAG`.
pub fn outcome(alloc: Global, files: &[Named], row: &str) -> Result<String, Mistake> {
    let (abbrevs, info) = first(row)?;
    let abbrevs = bytes_of(alloc, files, abbrevs)?;
    let info = bytes_of(alloc, files, info)?;
    match read_units(alloc, abbrevs.as_slice(), info.as_slice()) {
        Ok(units) => or_none(alloc, text_of(alloc, &units)?),
        Err(UnitsErr::Memory) => Err(Mistake::Memory),
        Err(e) => Ok(format!(in alloc; "{e}")?),
    }
}

/// All units.
fn text_of(alloc: Global, units: &Units) -> Result<String, Mistake> {
    let mut text = String::new(alloc);
    let mut number = 0;
    let mut unit = 0u32;
    for header in units.headers.as_slice() {
        part(&mut text)?;
        put_header(&mut text, header, units)?;
        number = put_entries(&mut text, &units.tree, unit, number)?;
        unit = unit.saturating_add(1);
    }
    Ok(text)
}

/// Adds where a unit and its table are.
fn put_header(text: &mut String, header: &UnitHeader, units: &Units) -> Result<(), Mistake> {
    let offset = header.offset;
    let table = header.abbrev_offset;
    match header.end() {
        Some(end) => write!(text, "{offset} to {end}, table {table}")?,
        None => write!(text, "{offset} to no end, table {table}")?,
    }
    match units.tables.find(table) {
        Some(found) => {
            let count = found.as_slice().len();
            write!(text, " of {count}:")?;
        }
        None => text.push_str(" is missing:")?,
    }
    Ok(())
}

/// Adds the entries of the unit from this number on, and gives the number of the first entry after them.
fn put_entries(text: &mut String, tree: &Tree, unit: u32, start: u32) -> Result<u32, Mistake> {
    for number in start..u32::MAX {
        match tree.entry(number) {
            Some(node) if node.unit == unit => put_entry(text, number, node)?,
            _ => return Ok(number),
        }
    }
    Ok(u32::MAX)
}

/// Adds an entry.
fn put_entry(text: &mut String, number: u32, node: &Node) -> Result<(), Mistake> {
    let offset = node.offset;
    let tag = node.tag;
    match node.up {
        Some(up) => write!(text, " {number} under {up} at {offset} {tag:#04x}")?,
        None => write!(text, " {number} at {offset} {tag:#04x}")?,
    }
    Ok(())
}

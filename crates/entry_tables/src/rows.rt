//! Rows of entries.
use crate::lines::put_line;
use case_words::mistake::Mistake;
use case_words::named::Named;
use case_words::words::{bytes_of, first};
use dwarf_dies::{Dies, read_dies};
use dwarf_entries::Sections;
use dwarf_links::read_type_links;
use dwarf_units::UnitsErr;
use std::alloc::Global;

/// Of `ABBREVIATIONS INFO`, the bytes of `.debug_abbrev` and `.debug_info`, a line for each entry, or the error.
pub fn outcome(alloc: Global, files: &[Named], row: &str) -> Result<String, Mistake> {
    let (abbrevs, info) = first(row)?;
    let abbrevs = bytes_of(alloc, files, abbrevs)?;
    let info = bytes_of(alloc, files, info)?;
    let sections = Sections {
        info: info.as_slice(),
        text: b"",
        line_text: b"",
        text_offsets: b"",
        addrs: b"",
        locs: b"",
        ranges: b"",
    };
    match read_dies(alloc, abbrevs.as_slice(), sections) {
        Ok(dies) => text_of(alloc, &dies),
        Err(UnitsErr::Memory) => Err(Mistake::Memory),
        Err(e) => Ok(format!(in alloc; "{e}")?),
    }
}

/// A line for each entry.
fn text_of<'a>(alloc: Global, dies: &'a Dies<'a>) -> Result<String, Mistake> {
    let links = read_type_links(alloc, dies)?;
    let mut text = String::new(alloc);
    for number in 0..u32::MAX {
        let Some(die) = dies.die(number) else {
            return Ok(text);
        };
        put_line(&mut text, alloc, &links, &die)?;
    }
    Ok(text)
}

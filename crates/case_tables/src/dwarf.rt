//! Abbreviation tables, the values of attributes, and texts by index.
use crate::lines::number;
use crate::mistake::Mistake;
use crate::named::Named;
use crate::words::{bytes_of, first, hex_of};
use dwarf_abbrev::{Abbrev, Attr, Spec, Table, form, put_table, read_attr, read_table};
use dwarf_lists::indexed_text;
use rv_bytes::{Cut, DwErr};
use rv_io::Buf;
use std::alloc::Global;

/// The number that a declaration has for an `implicit_const` of these rows.
const IMPLICIT: i64 = -5;

/// The forms and their names (DWARF 5, table 7.6).
const FORMS: [(&str, u64); 38] = [
    ("addr", form::ADDR),
    ("addrx", form::ADDRX),
    ("addrx1", form::ADDRX1),
    ("addrx2", form::ADDRX2),
    ("addrx3", form::ADDRX3),
    ("addrx4", form::ADDRX4),
    ("data1", form::DATA1),
    ("data2", form::DATA2),
    ("data4", form::DATA4),
    ("data8", form::DATA8),
    ("data16", form::DATA16),
    ("udata", form::UDATA),
    ("sdata", form::SDATA),
    ("implicit_const", form::IMPLICIT_CONST),
    ("string", form::STRING),
    ("strp", form::STRP),
    ("line_strp", form::LINE_STRP),
    ("strx", form::STRX),
    ("strx1", form::STRX1),
    ("strx2", form::STRX2),
    ("strx3", form::STRX3),
    ("strx4", form::STRX4),
    ("ref1", form::REF1),
    ("ref2", form::REF2),
    ("ref4", form::REF4),
    ("ref8", form::REF8),
    ("ref_udata", form::REF_UDATA),
    ("ref_addr", form::REF_ADDR),
    ("block1", form::BLOCK1),
    ("block2", form::BLOCK2),
    ("block4", form::BLOCK4),
    ("block", form::BLOCK),
    ("exprloc", form::EXPRLOC),
    ("sec_offset", form::SEC_OFFSET),
    ("loclistx", form::LOCLISTX),
    ("rnglistx", form::RNGLISTX),
    ("flag", form::FLAG),
    ("flag_present", form::FLAG_PRESENT),
];

/// Of `PLACE SECTION` the declarations of the table at the place, a line for each, or the error.
pub fn declarations(alloc: Global, files: &[Named], row: &str) -> Result<String, Mistake> {
    let (place, section) = first(row)?;
    let section = bytes_of(alloc, files, section)?;
    match read_table(alloc, section.as_slice(), number::<u64>(place)?) {
        Ok(table) => lines_of(alloc, &table),
        Err(e) => refusal(alloc, e),
    }
}

/// A line for each declaration.
fn lines_of(alloc: Global, table: &Table) -> Result<String, Mistake> {
    let mut lines = String::new(alloc);
    for declaration in table.as_slice() {
        if !lines.is_empty() {
            lines.push_str("\n")?;
        }
        put_declaration(&mut lines, declaration)?;
    }
    Ok(lines)
}

/// Adds `CODE TAG CHILDREN ATTRIBUTE:FORM ..`; an implicit constant has its number too.
fn put_declaration(line: &mut String, declaration: &Abbrev) -> Result<(), Mistake> {
    let Abbrev {
        code,
        tag,
        children,
        specs,
    } = declaration;
    let word = if *children { "children" } else { "alone" };
    write!(line, "{code} {tag:#04x} {word}")?;
    for Spec { attr, form, fixed } in specs.as_slice() {
        write!(line, " {attr:#04x}:{form:#04x}")?;
        if *form == form::IMPLICIT_CONST {
            write!(line, ":{fixed}")?;
        }
    }
    Ok(())
}

/// Of `CODE PLACE SECTION` the declaration of the code in the table at the place, or `none`.
pub fn declaration_of(alloc: Global, files: &[Named], row: &str) -> Result<String, Mistake> {
    let (code, row) = first(row)?;
    let (place, section) = first(row)?;
    let section = bytes_of(alloc, files, section)?;
    let table = match read_table(alloc, section.as_slice(), number::<u64>(place)?) {
        Ok(table) => table,
        Err(e) => return refusal(alloc, e),
    };
    let mut line = String::new(alloc);
    match table.find(number::<u64>(code)?) {
        Some(declaration) => put_declaration(&mut line, declaration)?,
        None => line.push_str("none")?,
    }
    Ok(line)
}

/// Of `SECTION` the bytes of the table at its start, written again: `the same`, or these bytes.
pub fn written_again(alloc: Global, files: &[Named], row: &str) -> Result<String, Mistake> {
    let section = bytes_of(alloc, files, row)?;
    let table = match read_table(alloc, section.as_slice(), 0) {
        Ok(table) => table,
        Err(e) => return refusal(alloc, e),
    };
    let mut out = Buf::new(alloc);
    put_table(&mut out, &table.into_list())?;
    if out.as_bytes() == section.as_slice() {
        Ok(String::from_str(alloc, "the same")?)
    } else {
        hex_of(alloc, out.as_bytes())
    }
}

/// Of `FORM PLACE BYTES` the value of an attribute of the form at the place, or the error, and how many bytes are left.
pub fn value(alloc: Global, files: &[Named], row: &str) -> Result<String, Mistake> {
    let (form, row) = first(row)?;
    let (place, bytes) = first(row)?;
    let spec = Spec {
        attr: 3,
        form: form_of(form)?,
        fixed: IMPLICIT,
    };
    let bytes = bytes_of(alloc, files, bytes)?;
    let place = number::<usize>(place)?;
    if place > bytes.len() {
        return Err(Mistake::NotOfTheForm);
    }
    let mut cut = Cut::from_place(bytes.as_slice(), place);
    let mut found = match read_attr(&mut cut, &spec) {
        Ok(value) => value_text(alloc, value)?,
        Err(e) => refusal(alloc, e)?,
    };
    let left = cut.left();
    if left > 0 {
        write!(found, ", {left} left")?;
    }
    Ok(found)
}

/// The code of the form of this name, or of `0x` and its digits.
fn form_of(word: &str) -> Result<u64, Mistake> {
    for (name, code) in FORMS {
        if name == word {
            return Ok(code);
        }
    }
    readers::read_hex(word.as_bytes()).ok_or(Mistake::NotOfTheForm)
}

/// What kind of value it is, and which.
fn value_text(alloc: Global, value: Attr<'_>) -> Result<String, Mistake> {
    Ok(match value {
        Attr::Addr(at) => format!(in alloc; "address {at:#x}")?,
        Attr::AddrIndex(index) => format!(in alloc; "address index {index}")?,
        Attr::Unsigned(n) => format!(in alloc; "unsigned {n}")?,
        Attr::Signed(n) => format!(in alloc; "signed {n}")?,
        Attr::Wide(n) => format!(in alloc; "wide {n:#x}")?,
        Attr::Block(bytes) => format!(in alloc; "block {}", hex_of(alloc, bytes)?)?,
        Attr::Expr(bytes) => format!(in alloc; "expression {}", hex_of(alloc, bytes)?)?,
        Attr::Flag(is_set) => format!(in alloc; "flag {is_set}")?,
        Attr::Inline(text) => {
            let text = String::from_utf8_lossy(alloc, text)?;
            format!(in alloc; "text {text}")?
        }
        Attr::StrAt(at) => format!(in alloc; "text at {at:#x}")?,
        Attr::LineStrAt(at) => format!(in alloc; "line text at {at:#x}")?,
        Attr::StrIndex(index) => format!(in alloc; "text index {index}")?,
        Attr::UnitRef(at) => format!(in alloc; "entry of the unit at {at:#x}")?,
        Attr::InfoRef(at) => format!(in alloc; "entry at {at:#x}")?,
        Attr::SecOffset(at) => format!(in alloc; "offset {at:#x}")?,
        Attr::LocIndex(index) => format!(in alloc; "location list {index}")?,
        Attr::RangeIndex(index) => format!(in alloc; "range list {index}")?,
    })
}

/// Of `BASE INDEX OFFSETS TEXTS` the text that the index leads to in quotes, or the error.
pub fn text(alloc: Global, files: &[Named], row: &str) -> Result<String, Mistake> {
    let (base, row) = first(row)?;
    let (index, row) = first(row)?;
    let (offsets, texts) = first(row)?;
    let offsets = bytes_of(alloc, files, offsets)?;
    let texts = bytes_of(alloc, files, texts)?;
    let base = number::<u64>(base)?;
    let index = number::<u64>(index)?;
    match indexed_text(offsets.as_slice(), base, index, texts.as_slice()) {
        Ok(text) => {
            let text = String::from_utf8_lossy(alloc, text)?;
            Ok(format!(in alloc; "\"{text}\"")?)
        }
        Err(e) => refusal(alloc, e),
    }
}

/// The text of an error.
fn refusal(alloc: Global, e: DwErr) -> Result<String, Mistake> {
    match e {
        DwErr::Memory => Err(Mistake::Memory),
        e => Ok(format!(in alloc; "{e}")?),
    }
}

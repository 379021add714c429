//! Bundle files: what they hold, and that it is written as it was read.
use bundle_file::{Bundle, CvSections, DwarfSections, read_bundle, write_bundle};
use case_words::mistake::Mistake;
use case_words::named::Named;
use case_words::words::{bytes_of, hex_of};
use layout_set::ReadErr;
use rv_io::Buf;
use std::alloc::Global;

/// Of the bytes of a bundle file its form and the lengths of its sections, or the error. Where what was read is written otherwise,
/// these bytes follow.
pub fn outcome(alloc: Global, files: &[Named], row: &str) -> Result<String, Mistake> {
    let bytes = bytes_of(alloc, files, row)?;
    let bundle = match read_bundle(alloc, bytes.as_slice()) {
        Ok(bundle) => bundle,
        Err(ReadErr::Refused(e)) => {
            let section = e.section;
            let offset = e.offset;
            let rule = e.rule;
            return Ok(format!(in alloc; "{section:?} offset {offset} breaks rule {rule}")?);
        }
        Err(ReadErr::Memory) => return Err(Mistake::Memory),
    };
    let mut out = Buf::new(alloc);
    write_bundle(&bundle, &mut out)?;
    let mut text = held(alloc, &bundle)?;
    if out.as_bytes() != bytes.as_slice() {
        let digits = hex_of(alloc, out.as_bytes())?;
        write!(text, ", written {digits}")?;
    }
    Ok(text)
}

/// The form and the lengths.
fn held(alloc: Global, bundle: &Bundle) -> Result<String, Mistake> {
    match bundle {
        Bundle::Dwarf(sections) => held_dwarf(alloc, sections),
        Bundle::Cv(sections) => held_codeview(alloc, sections),
    }
}

/// `dwarf`, and the lengths in order.
fn held_dwarf(alloc: Global, sections: &DwarfSections) -> Result<String, Mistake> {
    let mut text = String::from_str(alloc, "dwarf")?;
    put_length(&mut text, &sections.abbrev)?;
    put_length(&mut text, &sections.info)?;
    put_length(&mut text, &sections.text)?;
    put_length(&mut text, &sections.line_text)?;
    put_length(&mut text, &sections.text_offsets)?;
    put_length(&mut text, &sections.addrs)?;
    put_length(&mut text, &sections.locs)?;
    put_length(&mut text, &sections.ranges)?;
    Ok(text)
}

/// `codeview`, the two bases and the two lengths.
fn held_codeview(alloc: Global, sections: &CvSections) -> Result<String, Mistake> {
    let code = sections.code_base;
    let data = sections.data_base;
    let mut text = format!(in alloc; "codeview {code:#x} {data:#x}")?;
    put_length(&mut text, &sections.types)?;
    put_length(&mut text, &sections.symbols)?;
    Ok(text)
}

/// Adds how many bytes there are.
fn put_length(text: &mut String, section: &Buf) -> Result<(), Mistake> {
    let length = section.as_bytes().len();
    write!(text, " {length}")?;
    Ok(())
}

//! Entries of `.debug_info`, each with what is around it and what follows from that.
use crate::shown::or_none;
use case_words::mistake::Mistake;
use case_words::named::Named;
use case_words::words::{bytes_of, first};
use dwarf_dies::{Die, Dies, read_dies};
use dwarf_entries::{Sections, at};
use dwarf_names::{is_too_long, joined_text, own_text, own_word};
use dwarf_scopes::{
    Role, bearer_of, has_part, is_beside_part, is_inner_structure, is_passed, is_read, is_static,
    is_too_far, role_of,
};
use dwarf_units::UnitsErr;
use std::alloc::Global;

/// Of `ABBREVIATIONS INFO TEXTS OFFSETS`, the bytes of `.debug_abbrev`, `.debug_info`, `.debug_str` and `.debug_str_offsets`, the
/// entries, or the error.
pub fn outcome(alloc: Global, files: &[Named], row: &str) -> Result<String, Mistake> {
    let (abbrevs, row) = first(row)?;
    let (info, row) = first(row)?;
    let (texts, offsets) = first(row)?;
    let abbrevs = bytes_of(alloc, files, abbrevs)?;
    let info = bytes_of(alloc, files, info)?;
    let texts = bytes_of(alloc, files, texts)?;
    let offsets = bytes_of(alloc, files, offsets)?;
    let sections = Sections {
        info: info.as_slice(),
        text: texts.as_slice(),
        line_text: b"",
        text_offsets: offsets.as_slice(),
        addrs: b"",
        locs: b"",
        ranges: b"",
    };
    match read_dies(alloc, abbrevs.as_slice(), sections) {
        Ok(dies) => or_none(alloc, text_of(alloc, &dies)?),
        Err(UnitsErr::Memory) => Err(Mistake::Memory),
        Err(e) => Ok(format!(in alloc; "{e}")?),
    }
}

/// A line for each entry.
fn text_of<'a>(alloc: Global, dies: &'a Dies<'a>) -> Result<String, Mistake> {
    let mut text = String::new(alloc);
    for die in dies.iter() {
        put_place(&mut text, &die)?;
        put_tag(&mut text, &die)?;
        text.push_str(state_of(&die))?;
        put_facts(&mut text, &die)?;
        put_own(&mut text, alloc, &die)?;
        put_bearer(&mut text, &die)?;
        put_role(&mut text, alloc, &die)?;
        text.push_str("\n")?;
    }
    Ok(text)
}

/// Adds `NUMBER under PARENT at OFFSET in UNIT`.
fn put_place(text: &mut String, die: &Die<'_>) -> Result<(), Mistake> {
    let number = die.number();
    write!(text, "{number}")?;
    if let Some(up) = die.parent() {
        let up = up.number();
        write!(text, " under {up}")?;
    }
    let offset = die.offset();
    let unit = die.unit_start();
    write!(text, " at {offset} in {unit}")?;
    Ok(())
}

/// Adds ` TAG`.
fn put_tag(text: &mut String, die: &Die<'_>) -> Result<(), Mistake> {
    match die.what() {
        Some(tag) => write!(text, " {tag:?}")?,
        None => text.push_str(" unknown")?,
    }
    Ok(())
}

/// Whether it is passed over, and whether its attributes are looked at.
fn state_of(die: &Die<'_>) -> &'static str {
    match (is_passed(die), is_read(die)) {
        (false, true) => " kept",
        (true, false) => " passed",
        (true, true) => " passed, read",
        (false, false) => " kept, unread",
    }
}

/// Adds a word for each of some facts that holds.
fn put_facts(text: &mut String, die: &Die<'_>) -> Result<(), Mistake> {
    if is_static(die) {
        text.push_str(" static")?;
    }
    if has_part(die) {
        text.push_str(" enum")?;
    }
    if is_inner_structure(die) {
        text.push_str(" inner")?;
    }
    if is_beside_part(die) {
        text.push_str(" beside")?;
    }
    Ok(())
}

/// Adds ` "TEXT"` of the own name.
fn put_own(text: &mut String, alloc: Global, die: &Die<'_>) -> Result<(), Mistake> {
    let own = String::from_utf8_lossy(alloc, own_text(die))?;
    write!(text, " \"{own}\"")?;
    Ok(())
}

/// Adds ` of NUMBER`, the entry that has its name, or ` of none`, or ` too far`.
fn put_bearer(text: &mut String, die: &Die<'_>) -> Result<(), Mistake> {
    if is_too_far(die, at::NAME) {
        text.push_str(" too far")?;
        return Ok(());
    }
    match bearer_of(die, at::NAME) {
        Some(bearer) => {
            let number = bearer.number();
            write!(text, " of {number}")?;
        }
        None => text.push_str(" of none")?,
    }
    Ok(())
}

/// Adds what its name is, with its word or its joined text.
fn put_role(text: &mut String, alloc: Global, die: &Die<'_>) -> Result<(), Mistake> {
    match role_of(die) {
        Role::Word => put_word(text, alloc, die),
        Role::Joined => put_joined(text, alloc, die),
        Role::Plain => {
            text.push_str(" plain")?;
            Ok(())
        }
    }
}

/// Adds ` word WORD`.
fn put_word(text: &mut String, alloc: Global, die: &Die<'_>) -> Result<(), Mistake> {
    let word = own_word(alloc, die)?;
    let word = String::from_utf8_lossy(alloc, word.as_bytes())?;
    write!(text, " word {word}")?;
    Ok(())
}

/// Adds ` joined "TEXT"`, or that the text is too long.
fn put_joined(text: &mut String, alloc: Global, die: &Die<'_>) -> Result<(), Mistake> {
    if is_too_long(alloc, die)? {
        text.push_str(" too long")?;
        return Ok(());
    }
    let joined = joined_text(alloc, die)?;
    let joined = String::from_utf8_lossy(alloc, joined.as_slice())?;
    write!(text, " joined \"{joined}\"")?;
    Ok(())
}

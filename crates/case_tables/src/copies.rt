//! Words, copies of names, and the numbers of text files.
use crate::mistake::Mistake;
use readers::{read_decimal, read_hex};
use rv_io::Buf;
use std::alloc::Global;
use type_names::{NameErr, Word, cv_spelling, read_rust, rust_spelling};

/// Of a text in Rust's spelling both spellings of a copy of its name.
pub fn spellings(alloc: Global, text: &str) -> Result<String, Mistake> {
    let name = match read_rust(alloc, text.as_bytes()) {
        Ok(name) => name.copy(alloc)?,
        Err(e) => return place(alloc, e),
    };
    let mut rust = Buf::new(alloc);
    rust_spelling(&name, &mut rust)?;
    let mut codeview = Buf::new(alloc);
    cv_spelling(&name, &mut codeview)?;
    let rust = String::from_utf8_lossy(alloc, rust.as_bytes())?;
    let codeview = String::from_utf8_lossy(alloc, codeview.as_bytes())?;
    Ok(format!(in alloc; "{rust} | {codeview}")?)
}

/// Whether the text is a word: `a word`, or where it stops being the start of one.
pub fn word(alloc: Global, text: &str) -> Result<String, Mistake> {
    match Word::new(alloc, text.as_bytes()) {
        Ok(word) if word.as_bytes() == text.as_bytes() => Ok(String::from_str(alloc, "a word")?),
        Ok(_) => Ok(String::from_str(alloc, "another word")?),
        Err(e) => place(alloc, e),
    }
}

/// Where a text stops being a name.
fn place(alloc: Global, e: NameErr) -> Result<String, Mistake> {
    match e {
        NameErr::BadName { at } => Ok(format!(in alloc; "at {at}")?),
        NameErr::Memory => Err(Mistake::Memory),
    }
}

/// The number that the word spells with `0x`, or `none`.
pub fn hexadecimal(alloc: Global, word: &str) -> Result<String, Mistake> {
    match read_hex(word.as_bytes()) {
        Some(number) => Ok(format!(in alloc; "{number}")?),
        None => Ok(String::from_str(alloc, "none")?),
    }
}

/// The decimal number that the word spells, or `none`.
pub fn decimal(alloc: Global, word: &str) -> Result<String, Mistake> {
    match read_decimal(word.as_bytes()) {
        Some(number) => Ok(format!(in alloc; "{number}")?),
        None => Ok(String::from_str(alloc, "none")?),
    }
}

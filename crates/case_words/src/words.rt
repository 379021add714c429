//! Words of rows.
use crate::lines::{bytes_of_hex, pair};
use crate::mistake::Mistake;
use crate::named::Named;
use std::alloc::Global;

/// The bytes of a word: of the file of this name, if one is set; none for `-`; else those of its hexadecimal digits.
pub fn bytes_of(alloc: Global, files: &[Named], word: &str) -> Result<Vec<u8>, Mistake> {
    if let Some(bytes) = file_of(files, word) {
        return Ok(Vec::from_slice(alloc, bytes)?);
    }
    if word == "-" {
        return Ok(Vec::new(alloc));
    }
    bytes_of_hex(alloc, word)
}

/// The bytes of the file of this name, if one is set.
pub fn file_of<'a>(files: &'a [Named], name: &str) -> Option<&'a [u8]> {
    for file in files {
        if file.name.as_str() == name {
            return Some(file.bytes.as_slice());
        }
    }
    None
}

/// The bytes of the file of this name, which is set.
pub fn set_file<'a>(files: &'a [Named], name: &str) -> Result<&'a [u8], Mistake> {
    file_of(files, name).ok_or(Mistake::NotOfTheForm)
}

/// The bytes in hexadecimal digits, `-` for none.
pub fn hex_of(alloc: Global, bytes: &[u8]) -> Result<String, Mistake> {
    if bytes.is_empty() {
        return Ok(String::from_str(alloc, "-")?);
    }
    Ok(hex::encode(alloc, bytes)?)
}

/// The first word of a row, and the others.
pub fn first(row: &str) -> Result<(&str, &str), Mistake> {
    pair(row.split_once(' '))
}

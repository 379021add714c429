//! Lines that stand for more than themselves, and parts of lines.
use crate::mistake::Mistake;
use std::alloc::{AllocError, Global};
use std::str::FromStr;

/// Adds the line with its LF.
pub fn put_line(text: &mut Vec<u8>, line: &str) -> Result<(), AllocError> {
    text.extend_from_slice(line.as_bytes())?;
    text.push(b'\n')?;
    Ok(())
}

/// Adds the line without its LF; in it `<<UNIT*COUNT>>` is so many units.
pub fn put_repeating(text: &mut Vec<u8>, line: &str) -> Result<(), Mistake> {
    for (at, piece) in line.split("<<").enumerate() {
        if at == 0 {
            text.extend_from_slice(piece.as_bytes())?;
        } else {
            put_repeated(text, piece)?;
        }
    }
    Ok(())
}

/// Adds what `UNIT*COUNT>>REST` is.
fn put_repeated(text: &mut Vec<u8>, piece: &str) -> Result<(), Mistake> {
    let (unit, rest) = pair(piece.split_once(">>"))?;
    let (unit, count) = pair(unit.split_once("*"))?;
    for _ in 0..number::<u32>(count)? {
        text.extend_from_slice(unit.as_bytes())?;
    }
    text.extend_from_slice(rest.as_bytes())?;
    Ok(())
}

/// Of `FROM TO LINE` adds the line for each number from the first on and below the second. In it `%` is the number,
/// `%-` the number before, and `%x` the number in hexadecimal digits; `<<UNIT*COUNT>>` is so many units.
pub fn put_numbered(alloc: Global, text: &mut Vec<u8>, words: &str) -> Result<(), Mistake> {
    let (from, words) = pair(words.split_once(" "))?;
    let (to, line) = pair(words.split_once(" "))?;
    let mut template = Vec::new(alloc);
    put_repeating(&mut template, line)?;
    template.push(b'\n')?;
    let Ok(template) = str::from_utf8(template.as_slice()) else {
        return Err(Mistake::NotOfTheForm);
    };
    for i in number::<u32>(from)?..number::<u32>(to)? {
        put_with_number(alloc, text, template, i)?;
    }
    Ok(())
}

/// Adds the template, the number in the place of each `%`.
fn put_with_number(
    alloc: Global,
    text: &mut Vec<u8>,
    template: &str,
    i: u32,
) -> Result<(), AllocError> {
    for (at, piece) in template.split("%").enumerate() {
        if at == 0 {
            text.extend_from_slice(piece.as_bytes())?;
            continue;
        }
        let (digits, rest) = digits_before(alloc, piece, i)?;
        text.extend_from_slice(digits.as_bytes())?;
        text.extend_from_slice(rest.as_bytes())?;
    }
    Ok(())
}

/// The number as the piece after a `%` wants it, and the rest of the piece.
fn digits_before(alloc: Global, piece: &str, i: u32) -> Result<(String, &str), AllocError> {
    if let Some(rest) = piece.strip_prefix("-") {
        let before = i.saturating_sub(1);
        return Ok((format!(in alloc; "{before}")?, rest));
    }
    if let Some(rest) = piece.strip_prefix("x") {
        return Ok((format!(in alloc; "{i:x}")?, rest));
    }
    Ok((format!(in alloc; "{i}")?, piece))
}

/// Adds the bytes of pairs of hexadecimal digits; there may be single spaces between pairs.
pub fn put_hex(alloc: Global, text: &mut Vec<u8>, digits: &str) -> Result<(), Mistake> {
    for word in digits.split(" ") {
        match hex::decode(alloc, word) {
            Ok(bytes) => text.extend_from_slice(bytes.as_slice())?,
            Err(_) => return Err(Mistake::NotOfTheForm),
        }
    }
    Ok(())
}

/// The bytes of pairs of hexadecimal digits; there may be single spaces between pairs.
pub fn bytes_of_hex(alloc: Global, digits: &str) -> Result<Vec<u8>, Mistake> {
    let mut bytes = Vec::new(alloc);
    put_hex(alloc, &mut bytes, digits)?;
    Ok(bytes)
}

/// Takes the last LF away.
pub fn cut_line_end(text: &mut Vec<u8>) -> Result<(), Mistake> {
    match text.pop() {
        Some(b'\n') => Ok(()),
        _ => Err(Mistake::NotOfTheForm),
    }
}

/// Two parts of a line, where it has two.
pub fn pair<'a>(parts: Option<(&'a str, &'a str)>) -> Result<(&'a str, &'a str), Mistake> {
    parts.ok_or(Mistake::NotOfTheForm)
}

/// The number that the word spells.
pub fn number<F: FromStr>(word: &str) -> Result<F, Mistake>
where
    F::Err: Drop,
{
    match word.parse::<F>() {
        Ok(number) => Ok(number),
        Err(_) => Err(Mistake::NotOfTheForm),
    }
}

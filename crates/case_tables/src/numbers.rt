//! Numbers in bytes, as they are written, and what is read at a place.
use crate::lines::{number, pair};
use crate::mistake::Mistake;
use crate::words::{bytes_of, first, hex_of};
use rv_bytes::{
    Cut, CutErr, put_numeric, put_sleb, put_u8, put_u16, put_u32, put_u64, put_u128, put_uleb,
};
use rv_io::Buf;
use std::alloc::Global;
use std::fmt::Display;

/// The bytes that are written for `FORM:NUMBER FORM:NUMBER ..`, one after the other.
pub fn written(alloc: Global, items: &str) -> Result<String, Mistake> {
    let mut out = Buf::new(alloc);
    for item in items.split(' ') {
        let (form, digits) = pair(item.split_once(':'))?;
        put(&mut out, form, digits)?;
    }
    hex_of(alloc, out.as_bytes())
}

/// Writes the number in this form.
fn put(out: &mut Buf, form: &str, digits: &str) -> Result<(), Mistake> {
    match form {
        "u8" => Ok(put_u8(out, number::<u8>(digits)?)?),
        "u16" => Ok(put_u16(out, number::<u16>(digits)?)?),
        "u32" => Ok(put_u32(out, number::<u32>(digits)?)?),
        "u64" => Ok(put_u64(out, number::<u64>(digits)?)?),
        "u128" => Ok(put_u128(out, number::<u128>(digits)?)?),
        "uleb" => Ok(put_uleb(out, number::<u64>(digits)?)?),
        "sleb" => Ok(put_sleb(out, number::<i64>(digits)?)?),
        "numeric" => put_leaf(out, number::<i128>(digits)?),
        _ => Err(Mistake::NotOfTheForm),
    }
}

/// Writes the number as a numeric leaf, if there is one of it.
fn put_leaf(out: &mut Buf, n: i128) -> Result<(), Mistake> {
    if -0x8000_0000_0000_0000 <= n && n <= 0xffff_ffff_ffff_ffff {
        Ok(put_numeric(out, n)?)
    } else {
        Err(Mistake::NotOfTheForm)
    }
}

/// `FORM:NUMBER FORM:NUMBER ..`, as the bytes are read in the forms of these items.
pub fn read_back(alloc: Global, items: &str, digits: &str) -> Result<String, Mistake> {
    let bytes = bytes_of(alloc, &[], digits)?;
    let mut cut = Cut::new(bytes.as_slice());
    let mut found = String::new(alloc);
    for item in items.split(' ') {
        let (form, _) = pair(item.split_once(':'))?;
        if !found.is_empty() {
            found.push_str(" ")?;
        }
        let answer = answer_of(alloc, &mut cut, form)?;
        write!(found, "{form}:{answer}")?;
    }
    tell_left(&mut found, &cut)?;
    Ok(found)
}

/// What `BYTES CALL CALL ..` give, one after the other, and how many bytes are left. Where the bytes are read from a
/// place on, the first call is `from:N`.
pub fn read(alloc: Global, row: &str) -> Result<String, Mistake> {
    let (digits, calls) = first(row)?;
    let bytes = bytes_of(alloc, &[], digits)?;
    let (place, calls) = start_of(calls)?;
    if place > bytes.len() {
        return Err(Mistake::NotOfTheForm);
    }
    let mut cut = Cut::from_place(bytes.as_slice(), place);
    let mut found = String::new(alloc);
    for call in calls.split(' ') {
        if !found.is_empty() {
            found.push_str(", ")?;
        }
        found.push_str(answer_of(alloc, &mut cut, call)?.as_str())?;
    }
    tell_left(&mut found, &cut)?;
    Ok(found)
}

/// The place that the calls begin at, and the calls.
fn start_of(calls: &str) -> Result<(usize, &str), Mistake> {
    match calls.strip_prefix("from:") {
        Some(rest) => {
            let (place, calls) = first(rest)?;
            Ok((number::<usize>(place)?, calls))
        }
        None => Ok((0, calls)),
    }
}

/// Adds how many bytes are left, if any are.
fn tell_left(found: &mut String, cut: &Cut<'_>) -> Result<(), Mistake> {
    let left = cut.left();
    if left > 0 {
        write!(found, ", {left} left")?;
    }
    Ok(())
}

/// What a call gives.
fn answer_of(alloc: Global, cut: &mut Cut<'_>, call: &str) -> Result<String, Mistake> {
    match call {
        "u8" => shown(alloc, cut.u8()),
        "u16" => shown(alloc, cut.u16()),
        "u32" => shown(alloc, cut.u32()),
        "u64" => shown(alloc, cut.u64()),
        "u128" => shown(alloc, cut.u128()),
        "uleb" => shown(alloc, cut.uleb()),
        "sleb" => shown(alloc, cut.sleb()),
        "numeric" => shown(alloc, cut.numeric()),
        "text" => shown_bytes(alloc, cut.text()),
        "zero-text" => shown_bytes(alloc, cut.zero_text()),
        "at" => Ok(format!(in alloc; "at {}", cut.at())?),
        _ => counted(alloc, cut, call),
    }
}

/// What `take:N` or `number:N` gives.
fn counted(alloc: Global, cut: &mut Cut<'_>, call: &str) -> Result<String, Mistake> {
    let (call, count) = pair(call.split_once(':'))?;
    match call {
        "take" => shown_bytes(alloc, cut.take(number::<usize>(count)?)),
        "number" => match number::<u8>(count)? {
            width @ 1..=8 => shown(alloc, cut.number(width)),
            _ => Err(Mistake::NotOfTheForm),
        },
        _ => Err(Mistake::NotOfTheForm),
    }
}

/// The number that was read, or the text of the error.
fn shown<T: Display + Drop>(alloc: Global, found: Result<T, CutErr>) -> Result<String, Mistake> {
    match found {
        Ok(number) => Ok(format!(in alloc; "{number}")?),
        Err(e) => Ok(format!(in alloc; "{e}")?),
    }
}

/// The bytes that were read, in hexadecimal digits, or the text of the error.
fn shown_bytes(alloc: Global, found: Result<&[u8], CutErr>) -> Result<String, Mistake> {
    match found {
        Ok(bytes) => hex_of(alloc, bytes),
        Err(e) => Ok(format!(in alloc; "{e}")?),
    }
}

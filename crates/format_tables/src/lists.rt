//! Location lists and range lists, and the places of lists by their indexes.
use crate::shown::{or_none, part, refusal};
use crate::wanted::code_in;
use case_words::mistake::Mistake;
use case_words::named::Named;
use case_words::words::{bytes_of, first, hex_of};
use dwarf_lists::{
    Addrs, BoundedLocation, Bounds, Expression, Zone, indexed_list, put_ranges, read_location_list,
    read_ranges,
};
use rv_io::Buf;
use std::alloc::Global;

/// Where a list begins, and from which base its offsets count; `addresses` is the base of its addresses, or none of `-`.
#[derive(Clone, Copy)]
struct Start {
    at: u64,
    base: u64,
    addresses: Option<u64>,
}

/// Of `CALL WORD ..` what the call gives.
pub fn answer(alloc: Global, files: &[Named], row: &str) -> Result<String, Mistake> {
    let (call, words) = first(row)?;
    match call {
        "ranges" => ranges(alloc, files, words),
        "locations" => locations(alloc, files, words),
        "list" => list(alloc, files, words),
        _ => Err(Mistake::NotOfTheForm),
    }
}

/// Of `AT BASE ADDRESSES ..` where a list begins, and the other words.
fn start_of(words: &str) -> Result<(Start, &str), Mistake> {
    let (at, words) = first(words)?;
    let (base, words) = first(words)?;
    let (addresses, words) = first(words)?;
    let start = Start {
        at: code_in(at)?,
        base: code_in(base)?,
        addresses: base_or_none(addresses)?,
    };
    Ok((start, words))
}

/// A base, or none of `-`.
fn base_or_none(word: &str) -> Result<Option<u64>, Mistake> {
    if word == "-" {
        return Ok(None);
    }
    Ok(Some(code_in(word)?))
}

/// Of `AT BASE ADDRESSES ADDRESS-SECTION SECTION` the ranges of the list, or the error. The ranges are written and read again.
fn ranges(alloc: Global, files: &[Named], words: &str) -> Result<String, Mistake> {
    let (start, words) = start_of(words)?;
    let (addresses, section) = first(words)?;
    let addresses = bytes_of(alloc, files, addresses)?;
    let section = bytes_of(alloc, files, section)?;
    let addrs = Addrs {
        section: addresses.as_slice(),
        base: start.addresses,
    };
    let found = match read_ranges(alloc, section.as_slice(), start.at, start.base, &addrs) {
        Ok(zones) => zones,
        Err(e) => return refusal(alloc, e),
    };
    let mut text = String::new(alloc);
    for Zone { lo, hi } in found.as_slice() {
        part(&mut text)?;
        write!(text, "{lo:#x}..{hi:#x}")?;
    }
    put_again(alloc, &mut text, found.as_slice())?;
    or_none(alloc, text)
}

/// Writes the ranges and reads them again. Adds what comes, where it differs.
fn put_again(alloc: Global, text: &mut String, zones: &[Zone]) -> Result<(), Mistake> {
    let addrs = Addrs {
        section: b"",
        base: None,
    };
    let mut out = Buf::new(alloc);
    put_ranges(&mut out, zones)?;
    match read_ranges(alloc, out.as_bytes(), 0, 0, &addrs) {
        Ok(again) if again.as_slice() == zones => {}
        _ => {
            let digits = hex_of(alloc, out.as_bytes())?;
            write!(text, ", written {digits}")?;
        }
    }
    Ok(())
}

/// The same of a location list, with the place and the bytes of each expression.
fn locations(alloc: Global, files: &[Named], words: &str) -> Result<String, Mistake> {
    let (start, words) = start_of(words)?;
    let (addresses, section) = first(words)?;
    let addresses = bytes_of(alloc, files, addresses)?;
    let section = bytes_of(alloc, files, section)?;
    let addrs = Addrs {
        section: addresses.as_slice(),
        base: start.addresses,
    };
    let found = match read_location_list(alloc, section.as_slice(), start.at, start.base, &addrs) {
        Ok(locations) => locations,
        Err(e) => return refusal(alloc, e),
    };
    let mut text = String::new(alloc);
    for location in found.as_slice() {
        put_location(alloc, &mut text, location)?;
    }
    or_none(alloc, text)
}

/// Adds `LO..HI OFFSET BYTES`.
fn put_location(
    alloc: Global,
    text: &mut String,
    location: &BoundedLocation<'_>,
) -> Result<(), Mistake> {
    let BoundedLocation { bounds, expression } = location;
    let Bounds { lo, hi } = bounds;
    let Expression { offset, bytes } = expression;
    let digits = hex_of(alloc, bytes)?;
    part(text)?;
    write!(text, "{lo:#x}..{hi:#x} {offset} {digits}")?;
    Ok(())
}

/// Of `BASE INDEX SECTION` the place of the list that the index names, or `none`.
fn list(alloc: Global, files: &[Named], words: &str) -> Result<String, Mistake> {
    let (base, words) = first(words)?;
    let (index, section) = first(words)?;
    let section = bytes_of(alloc, files, section)?;
    match indexed_list(section.as_slice(), code_in(base)?, code_in(index)?) {
        Some(at) => Ok(format!(in alloc; "{at}")?),
        None => Ok(String::from_str(alloc, "none")?),
    }
}

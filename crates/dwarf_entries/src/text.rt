//! Where the texts and addresses of attributes are (DWARF 5, 7.5.5, 7.26 and 7.27).
ghost use Rattle.std.specs.Prelude.{◌≡◌, MatchResult};
ghost use Rattle.rv_bytes.specs.Reads.{rule_of};
ghost use Rattle.dwarf_abbrev.specs.Values.{val_of};
ghost use Rattle.dwarf_entries.specs.TextResults.{bytes_of, IsText, IsNoText};
ghost use Rattle.dwarf_entries.specs.Texts.{address_in, found_at, found_inline, indexed, number_at, text_in};
ghost use Rattle.rv_bytes.specs.Numbers.{text_breaks};
ghost use Rattle.layout_set.specs.declared.refusal.Section.{Section};

use crate::sections::{Bases, Sections};
use byteorder::{ByteOrder, LittleEndian};
use dwarf_abbrev::Attr;
use layout_set::{Refusal, Section};
use readers::is_text;
use rv_bytes::{Cut, CutErr, rule};

/// How many bytes an offset has, in 32-bit DWARF.
const OFFSET_SIZE: u64 = 4;

/// How many bytes an address has.
const ADDRESS_SIZE: u64 = 8;

/// How many bytes a text has at most.
const LONGEST: usize = 65_535;

/// Why an attribute has no text.
#[derive(Clone, Copy, Debug, PartialEq, Eq)]
pub enum TextErr {
    /// Its offset or its index leads outside its section, its unit has no base, or it is no string.
    Outside,
    /// What is there breaks this rule as a text: 12 or 14.
    Broken(Refusal),
}

/// The number of 4 bytes at a place, where they are all there.
fn offset_at(section: &[u8], at: u64) -> Option<u32>
    ensures { result ≡ number_at 4 section.now at }
{
    let end = at.checked_add(OFFSET_SIZE)?;
    if end > section.len() as u64 {
        return None;
    }
    Some(LittleEndian::read_u32(&section[at as usize..]))
}

/// The number of 8 bytes at a place, where they are all there.
fn address_at(section: &[u8], at: u64) -> Option<u64>
    ensures { result ≡ number_at 8 section.now at }
{
    let end = at.checked_add(ADDRESS_SIZE)?;
    if end > section.len() as u64 {
        return None;
    }
    Some(LittleEndian::read_u64(&section[at as usize..]))
}

/// The offset at an index, which counts from 0 at the base.
fn indexed_offset(section: &[u8], base: Option<u64>, index: u64) -> Option<u32>
    ensures { result ≡ indexed 4 section.now base index }
{
    let base = base?;
    let at = index.checked_mul(OFFSET_SIZE)?.checked_add(base)?;
    offset_at(section, at)
}

/// The address at an index, which counts from 0 at the base.
fn indexed_address(section: &[u8], base: Option<u64>, index: u64) -> Option<u64>
    ensures { result ≡ indexed 8 section.now base index }
{
    let base = base?;
    let at = index.checked_mul(ADDRESS_SIZE)?.checked_add(base)?;
    address_at(section, at)
}

/// The address that a value is, or the one at its index (DWARF 5, 7.27). None where the index leads
/// outside `.debug_addr`, where the unit has no base, and for a value that is no address. Takes no
/// memory.
pub fn address_of(sections: &Sections<'_>, bases: Bases, value: Attr<'_>) -> Option<u64>
    ensures { result ≡ address_in (bytes_of sections.now) bases (val_of value.entry) }
{
    match value {
        Attr::Addr(n) => Some(n),
        Attr::AddrIndex(index) => indexed_address(sections.addrs, bases.addrs, index),
        _ => None,
    }
}

/// The rule that is broken where bytes are no text.
fn rule_of(error: CutErr) -> u8
    ensures { result ≡ rule_of error }
{
    match error {
        CutErr::Short { .. } => rule::SHORT,
        CutErr::Wide { .. } => rule::WIDE,
        CutErr::NoZero { .. } => rule::NO_ZERO,
        CutErr::Kind { .. } => rule::UNKNOWN_LEAF,
        CutErr::NoText { .. } => rule::NO_TEXT,
    }
}

/// The error of a text that begins at this place.
fn broken(section: Section, offset: u64, rule: u8) -> TextErr
    ensures { result ≡ TextErr.Broken (record { section = section; offset = offset; rule = rule }) }
{
    TextErr::Broken(Refusal {
        section,
        offset,
        rule,
    })
}

/// The text at an offset of a section.
fn text_at<'a>(section: Section, texts: &'a [u8], offset: u64) -> Result<&'a [u8], TextErr>
    ensures { MatchResult result (λ t. IsText (found_at section texts.now offset) t.now) (IsNoText (found_at section texts.now offset)) }
{
    if offset >= texts.len() as u64 {
        return Err(TextErr::Outside);
    }
    let mut cut = Cut::from_place(texts, offset as usize);
    match cut.text() {
        Ok(text) => Ok(text),
        Err(error) => Err(broken(section, offset, rule_of(error))),
    }
}

/// A text in the entry itself, at this place.
fn inline_text(at: u64, text: &[u8]) -> Result<&[u8], TextErr>
    ensures { MatchResult result (λ t. IsText (Some (found_inline at text.now (text_breaks text.now))) t.now) (IsNoText (Some (found_inline at text.now (text_breaks text.now)))) }
{
    if text.len() <= LONGEST && is_text(text) {
        Ok(text)
    } else {
        Err(broken(Section::Info, at, rule::NO_TEXT))
    }
}

/// The text of an attribute of the class string whose value begins at this place of `.debug_info`
/// (DWARF 5, 7.5.5 and 7.26). Takes no memory.
pub fn text_of<'a>(
    sections: &Sections<'a>,
    bases: Bases,
    at: u64,
    value: Attr<'a>,
) -> Result<&'a [u8], TextErr>
    // What is found is this text, or the error says why it is none.
    ensures { MatchResult result (λ t. IsText (text_in (bytes_of sections.now) bases at (val_of value.entry)) t.now) (IsNoText (text_in (bytes_of sections.now) bases at (val_of value.entry))) }
{
    match value {
        Attr::Inline(text) => inline_text(at, text),
        Attr::StrAt(offset) => text_at(Section::Str, sections.text, offset),
        Attr::LineStrAt(offset) => text_at(Section::LineStr, sections.line_text, offset),
        Attr::StrIndex(index) => {
            match indexed_offset(sections.text_offsets, bases.text_offsets, index) {
                Some(offset) => text_at(Section::Str, sections.text, u64::from(offset)),
                None => Err(TextErr::Outside),
            }
        }
        _ => Err(TextErr::Outside),
    }
}

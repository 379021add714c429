//! The subsections of `.debug$S`.
ghost use Rattle.std.specs.Prelude.{◌≡◌, ◌≤◌, ◌+◌, ◌-◌, ◌^◌, length, drop, IfOk, IfErr, OnOk};
ghost use Rattle.rv_bytes.specs.Reads.{IsRefusedBy};
ghost use Rattle.cv_parts.specs.RecordReaders.{read_all};
ghost use Rattle.cv_parts.specs.Results.{IsPlaceOf};
ghost use Rattle.rv_bytes.specs.Results.{Reads};
ghost use Rattle.rv_bytes.specs.Readers.{with_value};
ghost use Rattle.cv_symbol_records.specs.Subsections.{pad, symbols, AreSymbols, joined};
ghost use Rattle.cv_symbol_records.specs.SubsectionReaders.{read_symbols_in, read_subsection};
ghost use Rattle.cv_symbol_records.specs.Results.{IsSubsection, IsNoSubsection, ReadsOnto, ReadsInside, chunk_in};

use crate::kinds::SymRec;
use crate::read::read_records;
use cv_parts::{read_signature, refused};
use rv_bytes::rule::SHORT;
use rv_bytes::{Cut, DwErr};
use rv_io::List;
use std::alloc::Global;

/// The kind of subsections that hold symbols.
const SYMBOLS: u32 = 0xf1;

/// How many bytes a subsection's kind and length have.
const HEADER: usize = 8;

/// A subsection.
#[derive(Clone, Copy, Debug)]
pub(crate) struct Subsection<'a> {
    /// What it holds.
    kind: u32,
    /// The section's bytes up to the end of the content, without the pad.
    bytes: &'a [u8],
    /// Where in them the content begins.
    start: usize,
}

/// The subsection that begins at a place of the section.
fn read_header<'a>(section: &'a [u8], at: usize) -> Result<Subsection<'a>, DwErr>
    requires { at ≤ length section.now }
    ensures found { IfOk result (IsSubsection section.now at) }
    ensures refused { IfErr result (IsNoSubsection section.now at) }
{
    let mut cut = Cut::from_place(section, at);
    let Ok(kind) = cut.u32() else {
        return Err(refused(at, SHORT));
    };
    let Ok(size) = cut.u32() else {
        return Err(refused(at, SHORT));
    };
    if cut.left() < size as usize {
        return Err(refused(at, SHORT));
    }
    let start = at + HEADER;
    Ok(Subsection {
        kind,
        bytes: &section[..start + size as usize],
        start,
    })
}

/// How many bytes bring a length to a multiple of 4.
fn pad(size: usize) -> usize
    ensures { result ≡ pad size }
{
    (4 - size % 4) % 4
}

/// Adds the symbols of a subsection; one of another kind has none.
fn read_found(
    alloc: Global,
    found: &Subsection<'_>,
    records: &mut List<SymRec>,
) -> Result<(), DwErr>
    requires fits { length found.now.bytes.now ≤ 2 ^ 32 }
    requires inside { found.now.start ≤ length found.now.bytes.now }
    ensures { ReadsInside records.old (read_symbols_in (chunk_in found.now) found.now.start (drop found.now.start found.now.bytes.now)) result records.new }
{
    if found.kind != SYMBOLS {
        return Ok(());
    }
    let mut content = Cut::from_place(found.bytes, found.start);
    read_records(alloc, found.bytes, &mut content, records)
}

/// Adds the symbols of the subsection at the cut's place, and moves the cut past it and its pad, of which
/// the section may lack a part.
fn read_subsection<'a>(
    alloc: Global,
    section: &'a [u8],
    cut: &mut Cut<'a>,
    records: &mut List<SymRec>,
) -> Result<(), DwErr>
    requires fits { length section.now ≤ 2 ^ 32 }
    requires more { 1 ≤ length cut.old.rest }
    requires place { IsPlaceOf section.now cut.old }
    ensures reads { ReadsOnto records.old (read_subsection (length cut.old.rest) cut.old.at cut.old.rest) result records.new cut.new }
    ensures place { OnOk result (IsPlaceOf section.now cut.new) }
{
    let found = read_header(section, cut.at())?;
    read_found(alloc, &found, records)?;
    let end = found.bytes.len();
    let past = end + pad(end - found.start).min(section.len() - end);
    *cut = Cut::from_place(section, past);
    Ok(())
}

/// The symbols of the subsections from the cut's place to the section's end.
fn read_subsections<'a>(
    alloc: Global,
    section: &'a [u8],
    cut: &mut Cut<'a>,
) -> Result<List<SymRec>, DwErr>
    requires fits { length section.now ≤ 2 ^ 32 }
    requires place { IsPlaceOf section.now cut.old }
    ensures { Reads (with_value joined (read_all read_subsection cut.old.at cut.old.rest)) result cut.new }
{
    let mut records = List::new(alloc);
    while cut.left() > 0 {
        read_subsection(alloc, section, cut, &mut records)?;
    }
    Ok(records)
}

/// Reads the symbol records of `section`, which is the whole of `.debug$S`, in their order, from all
/// subsections of kind 0xf1. What records lead to isn't looked at.
///
/// The `offset` of a refusal is in bytes from the section's start, where the first invalid item begins.
/// Its rules: 10 where the section ends inside its first number, inside a subsection (at the subsection),
/// or a subsection inside a record (at the record), or a record inside a field (at the field); 12 where no
/// zero byte ends a name; 13 where the kind of a numeric leaf is unknown; 14 where a name isn't UTF-8 or
/// has more than 65,535 bytes; 50 where the section doesn't begin with the number 4; 51 where a record's
/// length is below 2. Takes memory for the records.
pub fn read_symbols(alloc: Global, section: &[u8]) -> Result<List<SymRec>, DwErr>
    // The offsets of records fit 32 bits.
    requires { length section.now ≤ 2 ^ 32 }

    // The section's bytes are the signature and subsections with these records.
    ensures records { IfOk result (AreSymbols section.now) }

    // What is refused has no records, by the first invalid item.
    ensures refused { IfErr result (IsRefusedBy (symbols (length section.now)) (record { at = 0; rest = section.now })) }
{
    let mut cut = Cut::new(section);
    read_signature(&mut cut)?;
    read_subsections(alloc, section, &mut cut)
}

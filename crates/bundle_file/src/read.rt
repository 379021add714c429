//! How a bundle file is read.
ghost use Rattle.std.specs.Prelude.{◌≡◌, IfOk, IfErr};
ghost use Rattle.rv_bytes.specs.Results.{Reads, ReadsBy};
ghost use Rattle.bundle_file.specs.Parts.{number_of};
ghost use Rattle.bundle_file.specs.Sections.{AreDwarfSections, AreCvSections, HasSections};
ghost use Rattle.bundle_file.specs.Files.{IsBundleFile, IsNoBundleFile};
ghost use Rattle.bundle_file.specs.Readers.{read_header, read_dwarf, read_cv, read_contents, read_file};

use crate::parts::{read_base, read_exactly, read_format, read_section};
use crate::refusal::{in_bundle, refused};
use crate::rule;
use crate::sections::{Bundle, CvSections, DwarfSections, Format};
use layout_set::ReadErr;
use rv_bytes::{Cut, DwErr};
use std::alloc::Global;

/// What comes before the contents: the format.
fn read_header(cut: &mut Cut<'_>) -> Result<Format, DwErr>
    ensures { ReadsBy number_of (read_header cut.old.at cut.old.rest) result cut.new }
{
    read_exactly(cut, b"RVBUNDL1", rule::MAGIC)?;
    let format = read_format(cut)?;
    read_exactly(cut, &[8], rule::HEADER)?;
    read_exactly(cut, &[0, 0], rule::HEADER)?;
    Ok(format)
}

/// The eight sections of DWARF.
fn read_dwarf(alloc: Global, cut: &mut Cut<'_>) -> Result<DwarfSections, DwErr>
    ensures reads { Reads (read_dwarf cut.old.at cut.old.rest) result cut.new }
    ensures bounded { IfOk result AreDwarfSections }
{
    let abbrev = read_section(alloc, cut)?;
    let info = read_section(alloc, cut)?;
    let text = read_section(alloc, cut)?;
    let line_text = read_section(alloc, cut)?;
    let text_offsets = read_section(alloc, cut)?;
    let addrs = read_section(alloc, cut)?;
    let locs = read_section(alloc, cut)?;
    let ranges = read_section(alloc, cut)?;
    Ok(DwarfSections {
        abbrev,
        info,
        text,
        line_text,
        text_offsets,
        addrs,
        locs,
        ranges,
    })
}

/// The two bases and the two sections of CodeView.
fn read_cv(alloc: Global, cut: &mut Cut<'_>) -> Result<CvSections, DwErr>
    ensures reads { Reads (read_cv cut.old.at cut.old.rest) result cut.new }
    ensures bounded { IfOk result AreCvSections }
{
    let code_base = read_base(cut)?;
    let data_base = read_base(cut)?;
    let types = read_section(alloc, cut)?;
    let symbols = read_section(alloc, cut)?;
    Ok(CvSections {
        code_base,
        data_base,
        types,
        symbols,
    })
}

/// The sections of a format.
fn read_contents(alloc: Global, cut: &mut Cut<'_>, format: Format) -> Result<Bundle, DwErr>
    ensures reads { Reads (read_contents (number_of format) cut.old.at cut.old.rest) result cut.new }
    ensures bounded { IfOk result HasSections }
{
    match format {
        Format::Dwarf => Ok(Bundle::Dwarf(read_dwarf(alloc, cut)?)),
        Format::CodeView => Ok(Bundle::Cv(read_cv(alloc, cut)?)),
    }
}

/// A bundle that ends where the bytes do.
fn read_file(alloc: Global, cut: &mut Cut<'_>) -> Result<Bundle, DwErr>
    ensures reads { Reads (read_file cut.old.at cut.old.rest) result cut.new }
    ensures bounded { IfOk result HasSections }
{
    let format = read_header(cut)?;
    let bundle = read_contents(alloc, cut, format)?;
    if cut.left() > 0 {
        return Err(refused(cut.at(), rule::CONTENTS));
    }
    Ok(bundle)
}

/// Reads a bundle file, which holds the sections of one format, and nothing after them.
///
/// A bundle file has the eight bytes `RVBUNDL1`, the format in one byte (1 for DWARF, 2 for CodeView),
/// the pointer size 8 in one byte, and two zero bytes. Then come the eight sections of DWARF in the order
/// of [`DwarfSections`], or the two bases of CodeView in eight bytes each and its two sections. A section
/// is its length in four bytes and as many bytes. Each number has its lowest byte first.
///
/// A refusal is of the section `Bundle`, and its offset counts from the start of the file, where the first
/// invalid item begins: rule 1 at the first eight bytes, rule 2 at the format, the pointer size or the two
/// bytes after it, rule 3 at a base or a length that isn't there whole, at a length that leads past the
/// end, or at the first byte that is left over. Takes memory for each section, whose bytes are copied once.
pub fn read_bundle(alloc: Global, bytes: &[u8]) -> Result<Bundle, ReadErr>
    // What is read is what the file spells.
    ensures spelled { IfOk result (IsBundleFile bytes.now) }
    ensures bounded { IfOk result HasSections }

    // A refusal names the first invalid item, and the rule that it breaks.
    ensures refused { IfErr result (IsNoBundleFile bytes.now) }
{
    let mut cut = Cut::new(bytes);
    match read_file(alloc, &mut cut) {
        Ok(bundle) => Ok(bundle),
        Err(e) => Err(in_bundle(e)),
    }
}

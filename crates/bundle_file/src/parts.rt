//! The parts of a bundle file.
ghost use Rattle.std.specs.Prelude.{◌≡◌, ◌<◌, ◌^◌, IfOk, length};
ghost use Rattle.rv_bytes.specs.Results.{Reads, ReadsBy};
ghost use Rattle.bundle_file.specs.Parts.{number_of};
ghost use Rattle.bundle_file.specs.Readers.{read_exactly, read_format, read_base, read_section};

use crate::refusal::refused;
use crate::rule;
use crate::sections::Format;
use rv_bytes::{Cut, DwErr};
use rv_io::Buf;
use std::alloc::Global;

/// The number of the format of DWARF sections.
const DWARF: u8 = 1;

/// The number of the format of CodeView sections.
const CODE_VIEW: u8 = 2;

/// The number of a format.
pub(crate) fn number_of(format: Format) -> u8
    ensures { result ≡ number_of format }
{
    match format {
        Format::Dwarf => DWARF,
        Format::CodeView => CODE_VIEW,
    }
}

/// Moves past bytes that must be `word`.
pub(crate) fn read_exactly(cut: &mut Cut<'_>, word: &[u8], rule: u8) -> Result<(), DwErr>
    ensures { ReadsBy (λ _. word.now) (read_exactly rule word.now cut.old.at cut.old.rest) result cut.new }
{
    let at = cut.at();
    let Ok(bytes) = cut.take(word.len()) else {
        return Err(refused(at, rule));
    };
    if bytes == word {
        Ok(())
    } else {
        Err(refused(at, rule))
    }
}

/// The format, of which the bundle has a number.
pub(crate) fn read_format(cut: &mut Cut<'_>) -> Result<Format, DwErr>
    ensures { ReadsBy number_of (read_format cut.old.at cut.old.rest) result cut.new }
{
    let at = cut.at();
    match cut.u8() {
        Ok(DWARF) => Ok(Format::Dwarf),
        Ok(CODE_VIEW) => Ok(Format::CodeView),
        _ => Err(refused(at, rule::HEADER)),
    }
}

/// An address at which a section of the program begins.
pub(crate) fn read_base(cut: &mut Cut<'_>) -> Result<u64, DwErr>
    ensures { Reads (read_base cut.old.at cut.old.rest) result cut.new }
{
    let at = cut.at();
    match cut.u64() {
        Ok(base) => Ok(base),
        Err(_) => Err(refused(at, rule::CONTENTS)),
    }
}

/// The bytes of a section, after their length.
pub(crate) fn read_section(alloc: Global, cut: &mut Cut<'_>) -> Result<Buf, DwErr>
    ensures reads { Reads (read_section cut.old.at cut.old.rest) result cut.new }
    ensures bounded { IfOk result (λ section. length section < 2 ^ 32) }
{
    let at = cut.at();
    let Ok(len) = cut.u32() else {
        return Err(refused(at, rule::CONTENTS));
    };
    let Ok(bytes) = cut.take(len as usize) else {
        return Err(refused(at, rule::CONTENTS));
    };
    let mut section = Buf::new(alloc);
    section.put(bytes)?;
    Ok(section)
}

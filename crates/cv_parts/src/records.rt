//! Records: a length and as many bytes.
ghost use Rattle.std.specs.Prelude.{◌≡◌, ◌≤◌, length, drop, IfOk, IfErr};
ghost use Rattle.rv_bytes.specs.declared.err.DwErr.{DwErr};
ghost use Rattle.rv_bytes.specs.Results.{Reads};
ghost use Rattle.cv_parts.specs.RecordReaders.{read_signature};
ghost use Rattle.cv_parts.specs.Results.{IsContent, IsNoContent};

use crate::rule;
use rv_bytes::rule::SHORT;
use rv_bytes::{Cut, DwErr};

/// The number with which `.debug$T` and `.debug$S` begin.
const SIGNATURE: u32 = 4;

/// The refusal of the item that begins at a place, by the rule that it breaks.
pub fn refused(at: usize, rule: u8) -> DwErr
    ensures { result ≡ DwErr.Refused at rule }
{
    DwErr::Refused {
        offset: at as u64,
        rule,
    }
}

/// The content of the record that begins `at` bytes from the section's start: a cut of the bytes after
/// its length, as many as that says, with their places in the section.
///
/// Refused at the record's first byte: by rule 10 where the section ends inside it, and by rule 51 where
/// its length is below 2. Takes no memory.
pub fn read_content<'a>(section: &'a [u8], at: usize) -> Result<Cut<'a>, DwErr>
    requires { at ≤ length section.now }
    ensures content { IfOk result (IsContent section.now at) }
    ensures refused { IfErr result (IsNoContent section.now at) }
{
    let mut cut = Cut::from_place(section, at);
    let Ok(size) = cut.u16() else {
        return Err(refused(at, SHORT));
    };
    let size = usize::from(size);
    if cut.left() < size {
        return Err(refused(at, SHORT));
    }
    if size < 2 {
        return Err(refused(at, rule::NO_KIND));
    }
    Ok(Cut::from_place(&section[..at + 2 + size], at + 2))
}

/// Reads the number with which a section begins, which is 4.
///
/// Refused at its first byte: by rule 10 where the bytes end inside it, and by rule 50 where it is
/// another number. Takes no memory.
pub fn read_signature(cut: &mut Cut<'_>) -> Result<u32, DwErr>
    ensures { Reads (read_signature cut.old.at cut.old.rest) result cut.new }
{
    let at = cut.at();
    let number = cut.u32()?;
    if number == SIGNATURE {
        Ok(number)
    } else {
        Err(refused(at, rule::SIGNATURE))
    }
}

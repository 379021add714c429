//! Ranges of S_DEFRANGE symbols, with their gaps.
ghost use Rattle.std.specs.Prelude.{◌≡◌, length};
ghost use Rattle.byteorder.specs.Endian.{twos_complement};
ghost use Rattle.rv_bytes.specs.Results.{Reads};
ghost use Rattle.cv_parts.specs.RecordReaders.{read_so_many};
ghost use Rattle.cv_symbol_records.specs.RangeReaders.{read_signed, read_gap, read_range, read_range_reg, read_range_frame, read_range_subfield, read_range_full, read_range_rel};

use crate::kinds::{CvGap, CvRange, SymKind};
use rv_bytes::{Cut, DwErr};
use rv_io::List;
use std::alloc::Global;

/// How many bytes a gap has.
const GAP_SIZE: usize = 4;

/// The count of numbers of 32 bits.
const TWO_TO_32: i64 = 0x1_0000_0000;

/// The number whose two's complement these bits are.
fn signed(bits: u32) -> i32
    ensures { result ≡ twos_complement 4 bits }
{
    if bits < 0x8000_0000 {
        bits as i32
    } else {
        (i64::from(bits) - TWO_TO_32) as i32
    }
}

/// A number with a sign.
fn read_signed(cut: &mut Cut<'_>) -> Result<i32, DwErr>
    ensures { Reads (read_signed cut.old.at cut.old.rest) result cut.new }
{
    let bits = cut.u32()?;
    Ok(signed(bits))
}

/// A gap.
fn read_gap(cut: &mut Cut<'_>) -> Result<CvGap, DwErr>
    ensures { Reads (read_gap cut.old.at cut.old.rest) result cut.new }
{
    let start = cut.u16()?;
    let len = cut.u16()?;
    Ok(CvGap { start, len })
}

/// So many gaps.
fn read_gaps(alloc: Global, cut: &mut Cut<'_>, count: usize) -> Result<List<CvGap>, DwErr>
    ensures { Reads (read_so_many read_gap count cut.old.at cut.old.rest) result cut.new }
{
    let mut gaps = List::new(alloc);
    let mut left = count;
    while left > 0 {
        let gap = read_gap(cut)?;
        gaps.push(gap)?;
        left -= 1;
    }
    Ok(gaps)
}

/// A range, and as many gaps as the bytes left have whole.
#[tactic(auto, using(cv_parts::proofs::Contents::number_left))]
fn read_range(alloc: Global, cut: &mut Cut<'_>) -> Result<CvRange, DwErr>
    ensures { Reads (read_range (length cut.old.rest) cut.old.at cut.old.rest) result cut.new }
{
    let start = cut.u32()?;
    let section = cut.u16()?;
    let len = cut.u16()?;
    let count = cut.left() / GAP_SIZE;
    let gaps = read_gaps(alloc, cut, count)?;
    Ok(CvRange {
        start,
        section,
        len,
        gaps,
    })
}

/// S_DEFRANGE_REGISTER.
#[tactic(auto, using(cv_parts::proofs::Contents::number_left))]
pub(crate) fn read_range_reg(alloc: Global, cut: &mut Cut<'_>) -> Result<SymKind, DwErr>
    ensures { Reads (read_range_reg (length cut.old.rest) cut.old.at cut.old.rest) result cut.new }
{
    let reg = cut.u16()?;
    let attributes = cut.u16()?;
    let range = read_range(alloc, cut)?;
    Ok(SymKind::RangeReg {
        reg,
        attributes,
        range,
    })
}

/// S_DEFRANGE_FRAMEPOINTER_REL.
#[tactic(auto, using(crate::proofs::RangeForms::signed_left))]
pub(crate) fn read_range_frame(alloc: Global, cut: &mut Cut<'_>) -> Result<SymKind, DwErr>
    ensures { Reads (read_range_frame (length cut.old.rest) cut.old.at cut.old.rest) result cut.new }
{
    let offset = read_signed(cut)?;
    let range = read_range(alloc, cut)?;
    Ok(SymKind::RangeFrame { offset, range })
}

/// S_DEFRANGE_SUBFIELD_REGISTER.
#[tactic(auto, using(cv_parts::proofs::Contents::number_left))]
pub(crate) fn read_range_subfield(alloc: Global, cut: &mut Cut<'_>) -> Result<SymKind, DwErr>
    ensures { Reads (read_range_subfield (length cut.old.rest) cut.old.at cut.old.rest) result cut.new }
{
    let reg = cut.u16()?;
    let attributes = cut.u16()?;
    let at = cut.u32()?;
    let range = read_range(alloc, cut)?;
    Ok(SymKind::RangeSubfield {
        reg,
        attributes,
        at,
        range,
    })
}

/// S_DEFRANGE_FRAMEPOINTER_REL_FULL_SCOPE.
pub(crate) fn read_range_full(cut: &mut Cut<'_>) -> Result<SymKind, DwErr>
    ensures { Reads (read_range_full cut.old.at cut.old.rest) result cut.new }
{
    let offset = read_signed(cut)?;
    Ok(SymKind::RangeFrameFull { offset })
}

/// S_DEFRANGE_REGISTER_REL.
#[tactic(auto, using(cv_parts::proofs::Contents::number_left, crate::proofs::RangeForms::signed_left))]
pub(crate) fn read_range_rel(alloc: Global, cut: &mut Cut<'_>) -> Result<SymKind, DwErr>
    ensures { Reads (read_range_rel (length cut.old.rest) cut.old.at cut.old.rest) result cut.new }
{
    let reg = cut.u16()?;
    let flags = cut.u16()?;
    let offset = read_signed(cut)?;
    let range = read_range(alloc, cut)?;
    Ok(SymKind::RangeRel {
        reg,
        flags,
        offset,
        range,
    })
}

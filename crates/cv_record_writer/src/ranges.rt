//! The ranges of S_DEFRANGE symbols are appended, with their gaps.
ghost use Rattle.std.specs.Prelude.{◌≡◌, ◌++◌, length, OnOk};
ghost use Rattle.byteorder.specs.Endian.{twos_complement};
ghost use Rattle.cv_parts.specs.Puts.{Puts};
ghost use Rattle.cv_parts.specs.Series.{so_many};
ghost use Rattle.cv_symbol_records.specs.Ranges.{signed, gap_of, gap};
ghost use Rattle.cv_record_writer.specs.SymbolBytes.{bits_of, signed_bytes, gap_bytes};
ghost use Rattle.cv_record_writer.specs.Contents.{all_bytes};
ghost use Rattle.cv_record_writer.specs.Appended.{PutsRange};

use cv_symbol_records::{CvGap, CvRange};
use rv_bytes::{put_u16, put_u32};
use rv_io::{Buf, Memory};

/// The count of numbers of 32 bits.
const TWO_TO_32: i64 = 0x1_0000_0000;

/// The bits of the number's two's complement.
fn bits_of(n: i32) -> u32
    ensures bits { result ≡ bits_of n }
    ensures value { twos_complement 4 result ≡ n }
{
    if n >= 0 {
        n as u32
    } else {
        (i64::from(n) + TWO_TO_32) as u32
    }
}

/// Appends a number with a sign.
pub(crate) fn put_signed(out: &mut Buf, n: i32) -> Result<(), Memory>
    ensures { OnOk result (Puts signed n (signed_bytes n) out.old out.new) }
{
    put_u32(out, bits_of(n))
}

/// Appends the gap of this start and length.
fn put_gap(out: &mut Buf, start: u16, len: u16) -> Result<(), Memory>
    ensures { OnOk result (Puts gap (gap_of start len) (gap_bytes (gap_of start len)) out.old out.new) }
{
    put_u16(out, start)?;
    put_u16(out, len)
}

/// Appends gaps, one after the other.
fn put_gaps(out: &mut Buf, gaps: &[CvGap]) -> Result<(), Memory>
    ensures { OnOk result (Puts (so_many gap (length gaps.now)) gaps.now (all_bytes gap_bytes gaps.now) out.old out.new) }
{
    for gap in gaps {
        put_gap(out, gap.start, gap.len)?;
    }
    Ok(())
}

/// Appends a range and its gaps.
pub(crate) fn put_range(out: &mut Buf, range: &CvRange) -> Result<(), Memory>
    ensures { OnOk result (PutsRange range.now out.old out.new) }
{
    put_u32(out, range.start)?;
    put_u16(out, range.section)?;
    put_u16(out, range.len)?;
    put_gaps(out, range.gaps.as_slice())
}

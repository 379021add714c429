//! Numbers of 1, 2, 4 or 8 bytes (DWARF 5, 7.7.1).
ghost use Rattle.std.specs.Prelude.{◌≡◌};
ghost use Rattle.rv_bytes.specs.Readers.{with_value};
ghost use Rattle.rv_bytes.specs.NumberReaders.{read_number};
ghost use Rattle.rv_bytes.specs.Results.{Reads};
ghost use Rattle.expr_bytes.specs.Layouts.{bytes_in};
ghost use Rattle.expr_bytes.specs.Operands.{widened};

use rv_bytes::{Cut, DwErr};

/// How many bytes a number has.
#[derive(Clone, Copy, Debug, PartialEq, Eq)]
pub enum Width {
    One,
    Two,
    Four,
    Eight,
}

/// Reads a number of so many bytes, the lowest first.
pub fn read_unsigned(cut: &mut Cut<'_>, width: Width) -> Result<u64, DwErr>
    ensures { Reads (read_number (bytes_in width) cut.old.at cut.old.rest) result cut.new }
{
    Ok(match width {
        Width::One => u64::from(cut.u8()?),
        Width::Two => u64::from(cut.u16()?),
        Width::Four => u64::from(cut.u32()?),
        Width::Eight => cut.u64()?,
    })
}

/// Reads a number of so many bytes with a sign, the lowest first, as the same number in 64 bits.
pub fn read_signed(cut: &mut Cut<'_>, width: Width) -> Result<u64, DwErr>
    ensures { Reads (with_value (widened (bytes_in width)) (read_number (bytes_in width) cut.old.at cut.old.rest)) result cut.new }
{
    Ok(match width {
        Width::One => widened_byte(cut.u8()?),
        Width::Two => widened_half(cut.u16()?),
        Width::Four => widened_word(cut.u32()?),
        Width::Eight => cut.u64()?,
    })
}

/// A number of one byte with a sign, in 64 bits.
fn widened_byte(n: u8) -> u64
    ensures { result ≡ widened 1 n }
{
    i64::from(n.cast_signed()).cast_unsigned()
}

/// A number of two bytes with a sign, in 64 bits.
fn widened_half(n: u16) -> u64
    ensures { result ≡ widened 2 n }
{
    i64::from(n.cast_signed()).cast_unsigned()
}

/// A number of four bytes with a sign, in 64 bits.
fn widened_word(n: u32) -> u64
    ensures { result ≡ widened 4 n }
{
    i64::from(n.cast_signed()).cast_unsigned()
}

//! Headers of units (DWARF 5, 7.5.1).
ghost use Rattle.std.specs.Prelude.{◌≡◌, ◌<◌, ◌≤◌, ℕ, length, IfOk};
ghost use Rattle.dwarf_units.specs.Rules.{version, not_compile, address_size};
ghost use Rattle.dwarf_units.specs.Ends.{end_of};
ghost use Rattle.dwarf_units.specs.Units.{wants, length_breaks, table_breaks};
ghost use Rattle.dwarf_units.specs.UnitReaders.{ReadsUnits, read_field, read_header};

use crate::fault::UnitsErr;
use crate::rule;
use rv_bytes::Cut;

/// The lowest unit_length that 32-bit DWARF reserves (DWARF 5, 7.4).
const RESERVED: u64 = 0xffff_fff0;

/// How many bytes a unit_length has, in 32-bit DWARF (DWARF 5, 7.4).
const LENGTH_SIZE: u64 = 4;

/// DW_UT_compile (DWARF 5, 7.5.1).
const UT_COMPILE: u64 = 1;

/// Where a unit is, and where its table is (DWARF 5, 7.5.1.1).
#[derive(Clone, Copy, Debug, PartialEq, Eq)]
pub struct UnitHeader {
    /// Where the header begins, in bytes from the start of `.debug_info`.
    pub offset: u64,
    /// How many bytes of the unit follow this length, which has 4 bytes.
    pub unit_length: u64,
    /// Where the unit's table begins, in bytes from the start of `.debug_abbrev`.
    pub abbrev_offset: u64,
}

impl UnitHeader {
    /// Where the unit ends, in bytes from the start of `.debug_info`; None where that is 2^64 or more.
    /// Takes no memory.
    pub fn end(&self) -> Option<u64>
        ensures { result ≡ end_of self.now }
    {
        let size = self.unit_length.checked_add(LENGTH_SIZE)?;
        self.offset.checked_add(size)
    }
}

/// A number of so many bytes, with its place.
fn read_number(cut: &mut Cut<'_>, width: u8) -> Result<(u64, u64), UnitsErr>
    requires low { 1 ≤ width }
    requires high { width ≤ 8 }
    ensures number { ReadsUnits (λ v. v.1) (read_field width (λ _. None) cut.old.at cut.old.rest) result cut.new }
    ensures at { IfOk result (λ v. v.0 ≡ cut.old.at) }
{
    let at = cut.at() as u64;
    match cut.number(width) {
        Ok(n) => Ok((at, n)),
        Err(_) => Err(UnitsErr::Info {
            offset: at,
            rule: rv_bytes::rule::SHORT,
        }),
    }
}

/// A number of so many bytes, which must be the wanted one.
fn expect_number(cut: &mut Cut<'_>, width: u8, wanted: u64, rule: u8) -> Result<(), UnitsErr>
    requires low { 1 ≤ width }
    requires high { width ≤ 8 }
    ensures { ReadsUnits (λ _. wanted) (read_field width (wants wanted rule) cut.old.at cut.old.rest) result cut.new }
{
    let (offset, n) = read_number(cut, width)?;
    if n != wanted {
        return Err(UnitsErr::Info { offset, rule });
    }
    Ok(())
}

/// The unit_length.
pub(crate) fn read_length(cut: &mut Cut<'_>) -> Result<u64, UnitsErr>
    ensures reads { ReadsUnits (λ v. v) (read_field 4 length_breaks cut.old.at cut.old.rest) result cut.new }
    ensures bound { IfOk result (λ n. n < 0xfffffff0) }
{
    let (offset, n) = read_number(cut, 4)?;
    if n >= RESERVED {
        return Err(UnitsErr::Info {
            offset,
            rule: rule::RESERVED_LENGTH,
        });
    }
    Ok(n)
}

/// The header after its length: where the unit's table begins.
pub(crate) fn read_header(cut: &mut Cut<'_>, abbrevs: &[u8]) -> Result<u64, UnitsErr>
    ensures reads { ReadsUnits (λ v. v) (read_header abbrevs.now cut.old.at cut.old.rest) result cut.new }
    ensures inside { IfOk result (λ at. at < length abbrevs.now) }
{
    expect_number(cut, 2, 5, rule::VERSION)?;
    expect_number(cut, 1, UT_COMPILE, rule::NOT_COMPILE)?;
    expect_number(cut, 1, 8, rule::ADDRESS_SIZE)?;
    let (offset, at) = read_number(cut, 4)?;
    if at >= abbrevs.len() as u64 {
        return Err(UnitsErr::Info {
            offset,
            rule: dwarf_abbrev::rule::TABLE_OUTSIDE,
        });
    }
    Ok(at)
}

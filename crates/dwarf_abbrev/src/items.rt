//! The parts of attributes' values: what numbers and bytes say, and bytes after their length.
ghost use Rattle.std.specs.Prelude.{◌≡◌, ◌≢◌, ◌≤◌, IfErr, OnErr};
ghost use Rattle.rv_bytes.specs.Results.{ReadsBy};
ghost use Rattle.rv_bytes.specs.Readers.{as_item};
ghost use Rattle.rv_bytes.specs.NumberReaders.{read_bytes, read_number, read_uleb};
ghost use Rattle.rv_bytes.specs.declared.err.DwErr.{DwErr};
ghost use Rattle.dwarf_abbrev.specs.Values.{val_of, of_number, of_bytes};
ghost use Rattle.dwarf_abbrev.specs.Attrs.{any_value};
ghost use Rattle.dwarf_abbrev.specs.AttrReaders.{read_counted_by};

use crate::attr::Attr;
use crate::encoding::{BytesKind, NumberKind};
use rv_bytes::{Cut, CutErr, DwErr};

/// The value that a number says.
pub(crate) fn of_number<'a>(kind: NumberKind, n: u64) -> Attr<'a>
    ensures { val_of result ≡ of_number kind n }
{
    match kind {
        NumberKind::Addr => Attr::Addr(n),
        NumberKind::AddrIndex => Attr::AddrIndex(n),
        NumberKind::Unsigned => Attr::Unsigned(n),
        NumberKind::StrAt => Attr::StrAt(n),
        NumberKind::LineStrAt => Attr::LineStrAt(n),
        NumberKind::StrIndex => Attr::StrIndex(n),
        NumberKind::UnitRef => Attr::UnitRef(n),
        NumberKind::InfoRef => Attr::InfoRef(n),
        NumberKind::SecOffset => Attr::SecOffset(n),
        NumberKind::LocIndex => Attr::LocIndex(n),
        NumberKind::RangeIndex => Attr::RangeIndex(n),
    }
}

/// The value that bytes say.
pub(crate) fn of_bytes(kind: BytesKind, bytes: &[u8]) -> Attr<'_>
    ensures { val_of result ≡ of_bytes kind bytes.now }
{
    match kind {
        BytesKind::Block => Attr::Block(bytes),
        BytesKind::Expr => Attr::Expr(bytes),
    }
}

/// As many bytes from `ahead` on as the length says that begins at `cut`. A refusal is at the length.
fn read_behind<'a>(cut: &mut Cut<'a>, ahead: Cut<'a>, count: u64) -> Result<&'a [u8], DwErr>
    ensures reads { ReadsBy (λ v. v.now) (as_item any_value cut.old.at (read_bytes count ahead.entry.at ahead.entry.rest)) result cut.new }
    ensures same { OnErr result (cut.new ≡ cut.old) }
    ensures never_memory { IfErr result (λ e. e ≢ DwErr.Memory) }
{
    let mut ahead = ahead;
    let Ok(bytes) = ahead.take(count as usize) else {
        return Err(DwErr::from(CutErr::Short { at: cut.at() }));
    };
    *cut = ahead;
    Ok(bytes)
}

/// A length of so many bytes, and as many bytes as it says. A refusal is at the length.
pub(crate) fn read_counted<'a>(cut: &mut Cut<'a>, width: u8) -> Result<&'a [u8], DwErr>
    requires low { 1 ≤ width }
    requires high { width ≤ 8 }
    ensures reads { ReadsBy (λ v. v.now) (read_counted_by (read_number width) cut.old.at cut.old.rest) result cut.new }
    ensures same { OnErr result (cut.new ≡ cut.old) }
    ensures never_memory { IfErr result (λ e. e ≢ DwErr.Memory) }
{
    let mut ahead = cut.copy();
    let count = ahead.number(width)?;
    read_behind(cut, ahead, count)
}

/// An unsigned LEB128 length, and as many bytes as it says. A refusal is at the length.
pub(crate) fn read_leb_counted<'a>(cut: &mut Cut<'a>) -> Result<&'a [u8], DwErr>
    ensures reads { ReadsBy (λ v. v.now) (read_counted_by read_uleb cut.old.at cut.old.rest) result cut.new }
    ensures same { OnErr result (cut.new ≡ cut.old) }
    ensures never_memory { IfErr result (λ e. e ≢ DwErr.Memory) }
{
    let mut ahead = cut.copy();
    let count = ahead.uleb()?;
    read_behind(cut, ahead, count)
}

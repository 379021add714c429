//! Symbol records are read.
ghost use Rattle.std.specs.Prelude.{◌≡◌, ◌≤◌, ◌^◌, length, OnOk};
ghost use Rattle.rv_bytes.specs.Results.{Reads};
ghost use Rattle.cv_parts.specs.RecordReaders.{read_kind_then, read_all};
ghost use Rattle.cv_parts.specs.Results.{IsPlaceOf};
ghost use Rattle.cv_symbol_records.specs.SymbolReaders.{read_contents, read_symbol};
ghost use Rattle.cv_symbol_records.specs.Results.{ReadsOnto};

use crate::fields::read_by_kind;
use crate::kinds::{SymKind, SymRec};
use crate::leaves::leaf_of;
use cv_parts::read_content;
use rv_bytes::{Cut, DwErr};
use rv_io::List;
use std::alloc::Global;

/// What a record says, from its kind on.
#[tactic(auto, using(cv_parts::proofs::Contents::number_left))]
fn read_kind(alloc: Global, cut: &mut Cut<'_>) -> Result<SymKind, DwErr>
    ensures { Reads (read_kind_then read_contents (length cut.old.rest) cut.old.at cut.old.rest) result cut.new }
{
    let kind = cut.u16()?;
    match leaf_of(kind) {
        Some(leaf) => read_by_kind(alloc, cut, leaf),
        None => Ok(SymKind::Other(kind)),
    }
}

/// The record at the cut's place, and the cut past it. `bytes` are those of the section up to the end of
/// the subsection.
fn read_symbol<'a>(alloc: Global, bytes: &'a [u8], cut: &mut Cut<'a>) -> Result<SymRec, DwErr>
    requires fits { length bytes.now ≤ 2 ^ 32 }
    requires more { 1 ≤ length cut.old.rest }
    requires place { IsPlaceOf bytes.now cut.old }
    ensures reads { Reads (read_symbol cut.old.at cut.old.rest) result cut.new }
    ensures place { OnOk result (IsPlaceOf bytes.now cut.new) }
{
    let at = cut.at();
    let mut content = read_content(bytes, at)?;
    let end = content.at() + content.left();
    let kind = read_kind(alloc, &mut content)?;
    *cut = Cut::from_place(bytes, end);
    Ok(SymRec {
        offset: at as u32,
        kind,
    })
}

/// Adds the records from the cut's place to the end of the bytes.
pub(crate) fn read_records<'a>(
    alloc: Global,
    bytes: &'a [u8],
    cut: &mut Cut<'a>,
    records: &mut List<SymRec>,
) -> Result<(), DwErr>
    requires fits { length bytes.now ≤ 2 ^ 32 }
    requires place { IsPlaceOf bytes.now cut.old }
    ensures { ReadsOnto records.old (read_all (λ _. read_symbol) cut.old.at cut.old.rest) result records.new cut.new }
{
    while cut.left() > 0 {
        let record = read_symbol(alloc, bytes, cut)?;
        records.push(record)?;
    }
    Ok(())
}

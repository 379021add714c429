//! A unit (DWARF 5, 7.5.1).
ghost use Rattle.std.specs.Prelude.{◌≡◌, ◌<◌, ◌≤◌, ℕ, length, IfOk, IfErr, OnOk};
ghost use Rattle.dwarf_units.specs.Follows.{MayFollow};
ghost use Rattle.dwarf_units.specs.Kept.{AreTablesOf};
ghost use Rattle.dwarf_units.specs.UnitCalls.{TakesBody, RefusesBody, TakesUnit, RefusesUnit};

use crate::entry::read_entries;
use crate::fault::{UnitsErr, in_abbrev, in_info};
use crate::header::{UnitHeader, read_header, read_length};
use crate::units::Units;
use rv_bytes::{Cut, rule};
use std::alloc::Global;

/// The number of the next unit. No tree has more than 8,000,000 entries, and each unit has one.
fn next_number(kept: &Units) -> u32
    requires { length kept.now.headers ≤ length kept.now.tree }
    ensures { result ≡ length kept.now.headers }
{
    let number = kept.headers.as_slice().len();
    let entries = kept.tree.len();
    prove!(number <= entries);
    number as u32
}

/// Reads what follows a unit_length: the header, from which it gives the place of the table, then the
/// table and the entries.
fn read_body(
    alloc: Global,
    cut: &mut Cut<'_>,
    abbrevs: &[u8],
    kept: &mut Units,
) -> Result<u64, UnitsErr>
    requires tables { AreTablesOf abbrevs.now kept.old.tables }
    requires few { length kept.old.headers ≤ length kept.old.tree }
    requires follows { MayFollow kept.old.tree None cut.old.at }
    ensures taken { IfOk result (TakesBody abbrevs.now cut.old cut.new kept.old kept.new) }
    ensures refused { IfErr result (RefusesBody abbrevs.now cut.old kept.old) }
    ensures tables { OnOk result (AreTablesOf abbrevs.now kept.new.tables) }
    ensures more { OnOk result (length kept.old.tree < length kept.new.tree) }
    ensures follows { OnOk result (MayFollow kept.new.tree None cut.new.at) }
{
    let unit = next_number(kept);
    let at = read_header(cut, abbrevs)?;
    if let Err(e) = kept.tables.read(alloc, abbrevs, at) {
        return Err(in_abbrev(e));
    }
    let Some(table) = kept.tables.find(at) else {
        unreachable!()
    };
    match read_entries(cut, table, unit, &mut kept.tree) {
        Ok(()) => Ok(at),
        Err(e) => Err(in_info(e)),
    }
}

/// Reads the unit that begins at this place of `info`, and gives the place where it ends.
pub(crate) fn read_unit(
    alloc: Global,
    abbrevs: &[u8],
    info: &[u8],
    at: usize,
    kept: &mut Units,
) -> Result<usize, UnitsErr>
    requires inside { at ≤ length info.now }
    requires tables { AreTablesOf abbrevs.now kept.old.tables }
    requires few { length kept.old.headers ≤ length kept.old.tree }
    requires follows { MayFollow kept.old.tree None at }
    ensures taken { IfOk result (TakesUnit abbrevs.now info.now at kept.old kept.new) }
    ensures refused { IfErr result (RefusesUnit abbrevs.now info.now at kept.old) }
    ensures tables { OnOk result (AreTablesOf abbrevs.now kept.new.tables) }
    ensures few { OnOk result (length kept.new.headers ≤ length kept.new.tree) }
    ensures follows { IfOk result (MayFollow kept.new.tree None) }
{
    let mut cut = Cut::from_place(info, at);
    let unit_length = read_length(&mut cut)?;
    let size = unit_length as usize;
    if size > cut.left() {
        return Err(UnitsErr::Info {
            offset: at as u64,
            rule: rule::SHORT,
        });
    }
    let start = cut.at();
    let end = start + size;
    let mut body = Cut::from_place(&info[..end], start);
    let abbrev_offset = read_body(alloc, &mut body, abbrevs, kept)?;
    kept.headers.push(UnitHeader {
        offset: at as u64,
        unit_length,
        abbrev_offset,
    })?;
    Ok(end)
}

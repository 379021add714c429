//! The entries of location lists, with what their expressions say (DWARF 5, 2.6.2 and 7.7.3).
ghost use Rattle.std.specs.Prelude.{◌≡◌, ◌<◌, ◌+◌, ◌^◌, length, Some, IfOk, IfErr};
ghost use Rattle.rv_bytes.specs.Reads.{Takes, IsRefusedBy};
ghost use Rattle.dwarf_list_entries.specs.Locations.{bytes_seen};
ghost use Rattle.dwarf_locations.specs.Expressions.{SayLocation};
ghost use Rattle.dwarf_locations.specs.Lists.{said_entry};
ghost use Rattle.dwarf_locations.specs.Steps.{said_seen, IsRefusedIn};

use crate::location::read_loc;
use dwarf_list_entries::{Expression, ListEntry, read_location_entry};
use expr_bytes::{Addrs, Frame, OpsErr};
use layout_set::Loc;
use rv_bytes::{Cut, DwErr};
use std::alloc::Global;

/// An entry, and the location that its expression says, if it has one that says one.
#[derive(Drop)]
pub(crate) struct SaidEntry {
    pub entry: ListEntry,
    pub loc: Option<Loc>,
}

/// Reads an expression of a section.
fn read_expression(
    alloc: Global,
    expression: Expression<'_>,
    frame: Frame,
    addrs: &Addrs<'_>,
) -> Result<Option<Loc>, DwErr>
    requires { expression.offset + length expression.bytes.now < 2 ^ 64 }
    ensures said { IfOk result (SayLocation frame addrs.now expression.entry.bytes.now) }
    ensures refused { IfErr result (IsRefusedIn frame addrs.now (bytes_seen expression.entry)) }
{
    match read_loc(alloc, expression.bytes, frame, addrs) {
        Ok(loc) => Ok(loc),
        Err(OpsErr::Refused { offset, rule }) => Err(DwErr::Refused {
            offset: expression.offset as u64 + offset as u64,
            rule,
        }),
        Err(OpsErr::Memory) => Err(DwErr::Memory),
    }
}

/// Reads the next entry, and then its expression.
pub(crate) fn read_said(
    alloc: Global,
    cut: &mut Cut<'_>,
    frame: Frame,
    addrs: &Addrs<'_>,
) -> Result<SaidEntry, DwErr>
    ensures taken { IfOk result (λ e. Takes (said_entry frame addrs.now) cut.old cut.new (said_seen e)) }
    ensures refused { IfErr result (IsRefusedBy (said_entry frame addrs.now) cut.old) }
{
    let entry = read_location_entry(cut, addrs)?;
    // The expression ends here, so each place in it is below 2^64.
    let _end = cut.at();
    let loc = match entry.expression {
        Some(expression) => read_expression(alloc, expression, frame, addrs)?,
        None => None,
    };
    Ok(SaidEntry {
        entry: entry.entry,
        loc,
    })
}

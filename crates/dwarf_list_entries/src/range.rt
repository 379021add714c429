//! One entry of a range list (DWARF 5, 2.17.3 and 7.25).
ghost use Rattle.std.specs.Prelude.{◌≡◌, ◌≢◌, Some, IfOk, IfErr, OnErr};
ghost use Rattle.rv_bytes.specs.Reads.{Takes, IsRefusedBy};
ghost use Rattle.rv_bytes.specs.Results.{Reads};
ghost use Rattle.rv_bytes.specs.declared.err.DwErr.{DwErr};
ghost use Rattle.dwarf_list_entries.specs.Entries.{range_entry};
ghost use Rattle.dwarf_list_entries.specs.Readers.{read_coded_range, read_range_entry};

use crate::entry::ListEntry;
use crate::kind::range_kind;
use crate::lookup::look_up;
use crate::operands::read_operands;
use crate::refusal::{moved, refused};
use crate::rule;
use expr_eval::Addrs;
use rv_bytes::{Cut, DwErr};

/// Reads a kind and its operands. What is invalid is refused at its own place.
fn read_coded(cut: &mut Cut<'_>, addrs: &Addrs<'_>) -> Result<ListEntry, DwErr>
    ensures reads { Reads (read_coded_range addrs.now cut.old.at cut.old.rest) result cut.new }
    ensures never_memory { IfErr result (λ e. e ≢ DwErr.Memory) }
{
    let code = cut.u8()?;
    let Some(kind) = range_kind(code) else {
        return Err(refused(cut.at(), rule::UNKNOWN_KIND));
    };
    let raw = read_operands(cut, kind)?;
    match look_up(raw, addrs) {
        Some(entry) => Ok(entry),
        None => Err(refused(cut.at(), rv_bytes::rule::OUTSIDE)),
    }
}

/// Reads the next entry, as one item. What is invalid in it is refused where it begins, and the place stays.
fn read_item(cut: &mut Cut<'_>, addrs: &Addrs<'_>) -> Result<ListEntry, DwErr>
    ensures reads { Reads (read_range_entry addrs.now cut.old.at cut.old.rest) result cut.new }
    ensures never_memory { IfErr result (λ e. e ≢ DwErr.Memory) }
    ensures same { OnErr result (cut.new ≡ cut.old) }
{
    let mut ahead = cut.copy();
    match read_coded(&mut ahead, addrs) {
        Ok(entry) => {
            *cut = ahead;
            Ok(entry)
        }
        Err(e) => Err(moved(e, cut.at())),
    }
}

/// Reads the next entry of a range list, and moves `cut` past it (DWARF 5, 2.17.3 and 7.25). Its indexes
/// are looked up in `addrs`.
///
/// An entry is one item, so the `offset` of a refusal is the place of its kind. Its rules: 10 where the
/// bytes end inside it, 11 where a LEB128 number is too wide, 31 where an index has no address, 38 where
/// its kind is none of those that are read. Takes no memory.
pub fn read_range_entry(cut: &mut Cut<'_>, addrs: &Addrs<'_>) -> Result<ListEntry, DwErr>
    // What is read stands at the place, and the place moves past it.
    ensures taken { IfOk result (Takes (range_entry addrs.now) cut.old cut.new) }

    // What is refused is no entry, and has this cause; the place stays.
    ensures refused { IfErr result (IsRefusedBy (range_entry addrs.now) cut.old) }
    ensures never_memory { IfErr result (λ e. e ≢ DwErr.Memory) }
    ensures same { OnErr result (cut.new ≡ cut.old) }

    // The same in the words of readers, for the proofs of callers.
    ensures reads { Reads (read_range_entry addrs.now cut.old.at cut.old.rest) result cut.new }
{
    read_item(cut, addrs)
}

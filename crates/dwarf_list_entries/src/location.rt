//! One entry of a location list (DWARF 5, 2.6.2 and 7.7.3).
ghost use Rattle.std.specs.Prelude.{◌≡◌, ◌≢◌, Some, IfOk, IfErr, OnErr, option_map};
ghost use Rattle.rv_bytes.specs.Reads.{Takes, IsRefusedBy};
ghost use Rattle.rv_bytes.specs.Results.{ReadsBy};
ghost use Rattle.rv_bytes.specs.declared.err.DwErr.{DwErr};
ghost use Rattle.dwarf_list_entries.specs.Locations.{bytes_seen, entry_seen, location_entry};
ghost use Rattle.dwarf_list_entries.specs.Readers.{read_counted, read_expression, read_coded_location, read_location_entry};

use crate::entry::ListEntry;
use crate::kind::{Kind, has_expression, location_kind};
use crate::lookup::look_up;
use crate::operands::read_operands;
use crate::refusal::{moved, refused};
use crate::rule;
use expr_eval::Addrs;
use rv_bytes::{Cut, DwErr};

/// The bytes of an expression, and the place of the first of them.
#[derive(Clone, Copy, Debug, PartialEq, Eq)]
pub struct Expression<'a> {
    pub offset: usize,
    pub bytes: &'a [u8],
}

/// An entry of a location list. One with bounds has an expression, and no other.
#[derive(Clone, Copy, Debug, PartialEq, Eq)]
pub struct LocationEntry<'a> {
    pub entry: ListEntry,
    pub expression: Option<Expression<'a>>,
}

/// Reads a length, and as many bytes.
fn read_counted<'a>(cut: &mut Cut<'a>) -> Result<Expression<'a>, DwErr>
    ensures reads { ReadsBy bytes_seen (read_counted cut.old.at cut.old.rest) result cut.new }
    ensures never_memory { IfErr result (λ e. e ≢ DwErr.Memory) }
{
    let count = cut.uleb()?;
    let offset = cut.at();
    let bytes = cut.take(count as usize)?;
    Ok(Expression { offset, bytes })
}

/// Reads the expression of an entry of this kind, if it has one.
fn read_expression<'a>(cut: &mut Cut<'a>, kind: Kind) -> Result<Option<Expression<'a>>, DwErr>
    ensures reads { ReadsBy (option_map bytes_seen) (read_expression kind cut.old.at cut.old.rest) result cut.new }
    ensures never_memory { IfErr result (λ e. e ≢ DwErr.Memory) }
{
    if has_expression(kind) {
        Ok(Some(read_counted(cut)?))
    } else {
        Ok(None)
    }
}

/// Reads a kind, its operands and its expression. What is invalid is refused at its own place.
fn read_coded<'a>(cut: &mut Cut<'a>, addrs: &Addrs<'_>) -> Result<LocationEntry<'a>, DwErr>
    ensures reads { ReadsBy entry_seen (read_coded_location addrs.now cut.old.at cut.old.rest) result cut.new }
    ensures never_memory { IfErr result (λ e. e ≢ DwErr.Memory) }
{
    let code = cut.u8()?;
    let Some(kind) = location_kind(code) else {
        return Err(refused(cut.at(), rule::UNKNOWN_KIND));
    };
    let raw = read_operands(cut, kind)?;
    let expression = read_expression(cut, kind)?;
    match look_up(raw, addrs) {
        Some(entry) => Ok(LocationEntry { entry, expression }),
        None => Err(refused(cut.at(), rv_bytes::rule::OUTSIDE)),
    }
}

/// Reads the next entry, as one item. What is invalid in it is refused where it begins, and the place stays.
fn read_item<'a>(cut: &mut Cut<'a>, addrs: &Addrs<'_>) -> Result<LocationEntry<'a>, DwErr>
    ensures reads { ReadsBy entry_seen (read_location_entry addrs.now cut.old.at cut.old.rest) result cut.new }
    ensures never_memory { IfErr result (λ e. e ≢ DwErr.Memory) }
    ensures same { OnErr result (cut.new ≡ cut.old) }
{
    let mut ahead = cut.copy();
    match read_coded(&mut ahead, addrs) {
        Ok(entry) => {
            *cut = ahead;
            Ok(entry)
        }
        Err(e) => Err(moved(e, cut.at())),
    }
}

/// Reads the next entry of a location list, and moves `cut` past it (DWARF 5, 2.6.2 and 7.7.3). Its
/// indexes are looked up in `addrs`. The operations of its expression aren't looked at.
///
/// An entry is one item, its expression's bytes included, so the `offset` of a refusal is the place of its
/// kind. Its rules: 10 where the bytes end inside it, 11 where a LEB128 number is too wide, 31 where an
/// index has no address, 38 where its kind is none of those that are read, as `default_location` is. Takes
/// no memory.
pub fn read_location_entry<'a>(
    cut: &mut Cut<'a>,
    addrs: &Addrs<'_>,
) -> Result<LocationEntry<'a>, DwErr>
    // What is read stands at the place, and the place moves past it.
    ensures taken { IfOk result (λ e. Takes (location_entry addrs.now) cut.old cut.new (entry_seen e)) }

    // What is refused is no entry, and has this cause; the place stays.
    ensures refused { IfErr result (IsRefusedBy (location_entry addrs.now) cut.old) }
    ensures never_memory { IfErr result (λ e. e ≢ DwErr.Memory) }
    ensures same { OnErr result (cut.new ≡ cut.old) }

    // The same in the words of readers, for the proofs of callers.
    ensures reads { ReadsBy entry_seen (read_location_entry addrs.now cut.old.at cut.old.rest) result cut.new }
{
    read_item(cut, addrs)
}

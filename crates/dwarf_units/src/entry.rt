//! Entries of units (DWARF 5, 2.3 and 7.5.2).
ghost use Rattle.std.specs.Prelude.{◌≡◌, ◌<◌, ◌++◌, ◌∷◌, [], length, IfOk, IfErr, OnOk};
ghost use Rattle.rv_bytes.specs.Readers.{with_value};
ghost use Rattle.rv_bytes.specs.Results.{Reads, ReadsBy};
ghost use Rattle.rv_bytes.specs.declared.err.DwErr.{DwErr};
ghost use Rattle.entry_tree.specs.Entries.{new_entry, up_of};
ghost use Rattle.dwarf_units.specs.Entries.{due_under, goes_on, place_breaks, after};
ghost use Rattle.dwarf_units.specs.Follows.{MayFollow};
ghost use Rattle.dwarf_units.specs.EntryReaders.{nothing_of, IsPlaceFault, read_attributes, read_entry, read_entries, nodes_after};

use crate::rule;
use dwarf_abbrev::{Spec, Table, read_attr};
use entry_tree::{Tree, TreeErr};
use rv_bytes::{Cut, DwErr};

/// DW_TAG_compile_unit (DWARF 5, 7.5.3).
const TAG_COMPILE_UNIT: u64 = 0x11;

/// The refusal of the item that begins at a place, by the rule that it breaks.
fn refused(at: u64, rule: u8) -> DwErr
    ensures { result ≡ DwErr.Refused at rule }
{
    DwErr::Refused { offset: at, rule }
}

/// Passes over the values of these attributes.
#[tactic(auto, using(crate::proofs::Lists::left_step))]
fn pass_attributes(cut: &mut Cut<'_>, specs: &[Spec]) -> Result<(), DwErr>
    ensures { Reads (with_value nothing_of (read_attributes specs.now cut.old.at cut.old.rest)) result cut.new }
{
    for spec in specs {
        read_attr(cut, spec)?;
    }
    Ok(())
}

/// Adds an entry that begins at this place, below `under`, and gives its number.
fn add_entry(
    tree: &mut Tree,
    under: Option<u32>,
    at: u64,
    unit: u32,
    code: u64,
    tag: u64,
) -> Result<u32, DwErr>
    requires { MayFollow tree.old under at }
    ensures number { IfOk result (λ n. n ≡ length tree.old) }
    ensures fits { OnOk result (place_breaks (due_under tree.old under) ≡ None) }
    ensures added { OnOk result (tree.new ≡ tree.old ++ new_entry under at unit code tag ∷ []) }
    ensures refused { IfErr result (IsPlaceFault (place_breaks (due_under tree.old under)) at) }
{
    match tree.push(under, at, unit, code, tag) {
        Ok(number) => Ok(number),
        Err(TreeErr::Deep) => Err(refused(at, rule::TOO_DEEP)),
        Err(TreeErr::Full) => Err(refused(at, rule::TOO_MANY)),
        Err(TreeErr::Memory) => Err(DwErr::Memory),
    }
}

/// The parent of an entry, if it has one.
fn parent_of(tree: &Tree, number: u32) -> Option<u32>
    ensures { result ≡ up_of tree.now number }
{
    match tree.entry(number) {
        Some(node) => node.up,
        None => None,
    }
}

/// Reads the next entry of a unit, or the code 0, and gives the entry whose children are then due;
/// None where the unit's tree has ended. An entry is added to the tree below `under`.
fn read_entry(
    cut: &mut Cut<'_>,
    table: &Table,
    unit: u32,
    tree: &mut Tree,
    under: Option<u32>,
) -> Result<Option<u32>, DwErr>
    requires { MayFollow tree.old under cut.old.at }
    ensures { ReadsBy (goes_on tree.new) (with_value (after (due_under tree.old under)) (read_entry table.now unit (due_under tree.old under) cut.old.at cut.old.rest)) result cut.new }
{
    let at = cut.at() as u64;
    let code = cut.uleb()?;
    let Some(declaration) = table.find(code) else {
        return match under {
            Some(number) if code == 0 => Ok(parent_of(tree, number)),
            _ => Err(refused(at, rule::UNKNOWN_CODE)),
        };
    };
    if under.is_none() && declaration.tag != TAG_COMPILE_UNIT {
        return Err(refused(at, rule::NOT_COMPILE));
    }
    let number = add_entry(tree, under, at, unit, code, declaration.tag)?;
    pass_attributes(cut, declaration.specs.as_slice())?;
    Ok(if declaration.children {
        Some(number)
    } else {
        under
    })
}

/// Reads the entries of a unit, and adds them to the tree.
pub(crate) fn read_entries(
    cut: &mut Cut<'_>,
    table: &Table,
    unit: u32,
    tree: &mut Tree,
) -> Result<(), DwErr>
    requires { MayFollow tree.old None cut.old.at }
    ensures reads { ReadsBy (λ _. tree.new) (with_value (nodes_after (due_under tree.old None)) (read_entries table.now unit (due_under tree.old None) cut.old.at cut.old.rest)) result cut.new }
    ensures follows { OnOk result (MayFollow tree.new None cut.new.at) }
    ensures more { OnOk result (length tree.old < length tree.new) }
{
    let mut under = read_entry(cut, table, unit, tree, None)?;
    while under.is_some() {
        under = read_entry(cut, table, unit, tree, under)?;
    }
    Ok(())
}

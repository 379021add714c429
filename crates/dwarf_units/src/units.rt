//! All units of `.debug_info` (DWARF 5, 7.5).
ghost use Rattle.std.specs.Prelude.{◌≡◌, IfOk, IfErr, [], ℕ, None};
ghost use Rattle.dwarf_units.specs.Units.{IsRefusal};
ghost use Rattle.dwarf_units.specs.Kept.{table_at, AreKept};

use crate::fault::UnitsErr;
use crate::header::UnitHeader;
use crate::tables::Tables;
use crate::unit::read_unit;
use entry_tree::Tree;
use rv_io::List;
use std::alloc::Global;

/// What is kept of the units of `.debug_info`.
#[derive(Drop)]
pub struct Units {
    /// The headers, in order.
    pub headers: List<UnitHeader>,
    /// All entries, in order. The `unit` of an entry is the number of its header.
    pub tree: Tree,
    /// The tables that the headers name.
    pub tables: Tables,
}

impl Units {
    /// No units. Takes no memory.
    fn new(alloc: Global) -> Units
        ensures headers { result.headers ≡ [] }
        ensures tree { result.tree ≡ [] }
        ensures tables { (at : ℕ) → table_at result.tables at ≡ None }
    {
        Units {
            headers: List::new(alloc),
            tree: Tree::new(alloc),
            tables: Tables::new(alloc),
        }
    }
}

/// Reads all units (DWARF 5, 7.5). `abbrevs` is the whole of `.debug_abbrev`, and `info` the whole of
/// `.debug_info`, up to whose end there are units; bytes of a unit after its tree are passed over. Tables
/// that units share are read once.
///
/// The `offset` of a refusal is in bytes from the start of the section that it names, where the first
/// invalid item begins. Items are, of each unit in order: its length, version, type, address size and
/// table's place; then the table's, in `.debug_abbrev`; then of each entry its code, and each attribute's
/// value. Rules: those of [`read_attr`](dwarf_abbrev::read_attr), which reads up to the unit's end, and of
/// [`read_table`](dwarf_abbrev::read_table), but 24 is at the header's field in `.debug_info`; 10 at the
/// length of a unit that passes the section; and those of [`rule`](crate::rule). Takes memory for the
/// headers, the entries and the tables.
pub fn read_units(alloc: Global, abbrevs: &[u8], info: &[u8]) -> Result<Units, UnitsErr>
    // The section consists of units, and these are kept.
    ensures units { IfOk result (AreKept abbrevs.now info.now) }

    // What is refused doesn't consist of units.
    ensures refused { IfErr result (IsRefusal abbrevs.now info.now) }
{
    let mut kept = Units::new(alloc);
    let mut at = 0;
    while at < info.len() {
        at = read_unit(alloc, abbrevs, info, at, &mut kept)?;
    }
    Ok(kept)
}

//! The abbreviation tables of a section, each read once (DWARF 5, 7.5.3).
ghost use Rattle.std.specs.Prelude.{◌≡◌, ◌<◌, ℕ, List as Seq, length, drop, IfErr, OnOk, option_copied, IsSome};
ghost use Rattle.rv_bytes.specs.Readers.{bad};
ghost use Rattle.dwarf_units.specs.Kept.{table_at, AreTablesOf, KeepsTables};
ghost use Rattle.dwarf_units.specs.UnitReaders.{IsTableFault};

use dwarf_abbrev::{Table, read_table};
use rv_bytes::DwErr;
use std::alloc::Global;
use std::collections::BTreeMap;

/// The abbreviation tables that units have, by their places, so that units which share one have it
/// once.
#[derive(Debug, Drop)]
pub struct Tables {
    by_offset: BTreeMap<u64, Table>,
}

impl Tables {
    /// No tables. Takes no memory.
    pub(crate) fn new(alloc: Global) -> Tables
        ensures { (at : ℕ) → table_at result at ≡ None }
    {
        Tables {
            by_offset: BTreeMap::new(alloc),
        }
    }

    /// The table that begins at this place, in bytes from the start of `.debug_abbrev`; None where no
    /// unit names the place. Takes no memory, and time that grows with the logarithm of the count of
    /// tables.
    pub fn find(&self, offset: u64) -> Option<&Table>
        ensures { option_copied result ≡ table_at self.now offset }
    {
        self.by_offset.get(&offset)
    }

    /// Reads the table that begins at this place of `.debug_abbrev`, unless it was read before.
    pub(crate) fn read(&mut self, alloc: Global, abbrevs: &[u8], at: u64) -> Result<(), DwErr>
        requires inside { at < length abbrevs.now }
        requires tables { AreTablesOf abbrevs.now self.old }

        // The table is there, and all others stay.
        ensures there { OnOk result (IsSome (table_at self.new at)) }
        ensures kept { OnOk result (KeepsTables self.old self.new) }
        ensures tables { OnOk result (AreTablesOf abbrevs.now self.new) }

        // What is refused has no table there.
        ensures refused { IfErr result (IsTableFault abbrevs.now at) }
    {
        if self.by_offset.contains_key(&at) {
            return Ok(());
        }
        let table = read_table(alloc, abbrevs, at)?;
        if self.by_offset.insert(at, table).is_err() {
            return Err(DwErr::Memory);
        }
        Ok(())
    }
}

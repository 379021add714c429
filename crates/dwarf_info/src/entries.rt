//! The entries of `.debug_info` (DWARF 5, 7.5).
ghost use Rattle.std.specs.Prelude.{◌≡◌, length, IfOk, IfErr};
ghost use Rattle.dwarf_entries.specs.TextResults.{bytes_of};
ghost use Rattle.dwarf_dies.specs.Units.{all_units};
ghost use Rattle.dwarf_dies.specs.Views.{AreDiesOf};
ghost use Rattle.dwarf_info.specs.Entries.{IsSplitFault, refusal_of};

use dwarf_dies::{Dies, read_dies};
use dwarf_entries::Sections;
use dwarf_units::UnitsErr;
use layout_set::{ReadErr, Refusal, Section};
use std::alloc::Global;

/// The refusal of units, with its section.
fn refusal_of(error: UnitsErr) -> ReadErr
    ensures { result ≡ refusal_of error }
{
    match error {
        UnitsErr::Info { offset, rule } => ReadErr::Refused(Refusal {
            section: Section::Info,
            offset,
            rule,
        }),
        UnitsErr::Abbrev { offset, rule } => ReadErr::Refused(Refusal {
            section: Section::Abbrev,
            offset,
            rule,
        }),
        UnitsErr::Memory => ReadErr::Memory,
    }
}

/// Reads all entries. Refuses the first invalid item of the two sections.
pub fn read_entries<'a>(
    alloc: Global,
    abbrevs: &'a [u8],
    sections: Sections<'a>,
) -> Result<Dies<'a>, ReadErr>
    ensures dies { IfOk result (AreDiesOf abbrevs.now (bytes_of sections.entry)) }
    ensures refused { IfErr result (IsSplitFault (all_units abbrevs.now (length sections.entry.info.now)) sections.entry.info.now) }
{
    match read_dies(alloc, abbrevs, sections) {
        Ok(dies) => Ok(dies),
        Err(error) => Err(refusal_of(error)),
    }
}

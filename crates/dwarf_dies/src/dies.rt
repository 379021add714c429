//! All entries of `.debug_info`, and the sections that they lead to.
ghost use Rattle.std.specs.Prelude.{◌≡◌, ◌==◌, length, IfOk, IfErr};
ghost use Rattle.dwarf_units.specs.Units.{IsRefusal};
ghost use Rattle.dwarf_entries.specs.TextResults.{bytes_of};
ghost use Rattle.dwarf_dies.specs.Laws.{AreLinked};
ghost use Rattle.dwarf_dies.specs.Views.{AreDiesOf};

use dwarf_entries::Sections;
use dwarf_units::{Units, UnitsErr, read_units};
use std::alloc::Global;
use std::marker::Model;

/// The entries of `.debug_info`, by their numbers, which count from 0 over the whole section. Contracts
/// see them with what is around them, and the bytes of the sections.
#[derive(Drop)]
pub struct Dies<'a> {
    /// `.debug_abbrev`
    abbrevs: &'a [u8],
    pub(crate) sections: Sections<'a>,
    pub(crate) units: Units,
    count: usize,
}

impl<'a> Model for Dies<'a> {
    ghost use Rattle.dwarf_entries.specs.Dies.{Info};
    ghost use Rattle.dwarf_entries.specs.TextResults.{bytes_of};
    ghost use Rattle.dwarf_dies.specs.Views.{info_read, IsView};

    ghost Value = { Info };

    ghost view = { λ d. info_read d.abbrevs.now (bytes_of d.sections) };

    ghost invariant = { λ d. IsView d.abbrevs.now d.sections.info.now d.units d.count };
}

impl<'a> Dies<'a> {
    /// How many entries there are. Takes no memory.
    pub fn len(&self) -> usize
        ensures count { result ≡ length self.now.dies }

        // Each has its number, offsets rise, and the parent of one is that of its parent's number.
        ensures laws { AreLinked self.now }
    {
        self.count
    }

    /// Whether there is no entry. Takes no memory.
    pub fn is_empty(&self) -> bool
        ensures { result ≡ (length self.now.dies == 0) }
    {
        self.count == 0
    }
}

/// Reads all entries. `abbrevs` is the whole of `.debug_abbrev`. Refuses what
/// [`read_units`](dwarf_units::read_units) refuses, and takes memory as it does.
pub fn read_dies<'a>(
    alloc: Global,
    abbrevs: &'a [u8],
    sections: Sections<'a>,
) -> Result<Dies<'a>, UnitsErr>
    // The section consists of units, and these are their entries.
    ensures dies { IfOk result (AreDiesOf abbrevs.now (bytes_of sections.entry)) }

    // What is refused doesn't consist of units.
    ensures refused { IfErr result (IsRefusal abbrevs.now sections.entry.info.now) }
{
    let units = read_units(alloc, abbrevs, sections.info)?;
    let count = units.tree.len();
    Ok(Dies {
        abbrevs,
        sections,
        units,
        count,
    })
}

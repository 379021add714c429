//! Theorems, each the contract of a call that does nothing.
ghost use Rattle.std.specs.Prelude.{List as Seq, ℕ, length};
ghost use Rattle.dwarf_entries.specs.Said.{HasOneDescription};
ghost use Rattle.dwarf_entries.specs.Shapes.{Sections};
ghost use Rattle.dwarf_dies.specs.Units.{all_units};
ghost use Rattle.dwarf_info.specs.Reads.{HaveReading};

use dwarf_units::units_are_read_one_way;

/// Sections describe at most one set, have at most one first error, and never both.
pub fn sections_have_one_description()
    ensures { (abbrevs : Seq ℕ) (sections : Sections) → HasOneDescription sections (all_units abbrevs (length sections.info)) }
{
    units_are_read_one_way();
}

/// No sections are without a set that they describe or a first error.
#[tactic(auto, using(crate::proofs::SomeReading::some_reading))]
pub fn sections_have_a_description()
    ensures { HaveReading }
{}

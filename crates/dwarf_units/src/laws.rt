//! Theorems on units, each the contract of a call that does nothing.
ghost use Rattle.dwarf_units.specs.Laws.{OneSplit};

/// Bytes are at most one list of units, have a first error in at most one way, and never both.
pub fn units_are_read_one_way()
    ensures { OneSplit }
{}

//! Theorems, each the contract of a call that does nothing.
ghost use Rattle.dwarf_entries.specs.Dies.{Info};
ghost use Rattle.dwarf_laws.specs.Unbroken.{AreReadWithParents, AreUnbroken, BreaksNone};

/// Where no item breaks a rule, the names are words and the numbers fit that the set takes from the entries.
pub fn items_that_break_no_rule()
    ensures { (info : Info) → BreaksNone info → AreUnbroken info }
{}

/// What says of an entry what it is, is read where that entry is.
pub fn entries_are_read_with_their_parents()
    ensures { (info : Info) → AreReadWithParents info }
{}

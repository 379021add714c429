//! The laws of layout files.
ghost use Rattle.layout_reader.specs.Claims.{HaveReading, SpellOne, HaveNoFault, HaveOneFault};

/// A file spells at most one set.
pub fn a_file_spells_one_set()
    ensures { SpellOne }
{}

/// Each file spells a set, or has a fault.
pub fn a_file_is_spelled_or_at_fault()
    ensures { HaveReading }
{}

/// A file that spells a set is refused only for want of memory.
pub fn a_spelled_file_has_no_fault()
    ensures { HaveNoFault }
{}

/// A file has at most one fault.
pub fn a_file_has_at_most_one_fault()
    ensures { HaveOneFault }
{}

//! Theorems on memory and of snapshot files, each the contract of a call that does nothing.
ghost use Rattle.snapshot_file.specs.Snapshots.{OneSnapshot, OneMemory};
ghost use Rattle.snapshot_file.specs.Claims.{HaveReading, HaveNoFault, HaveOneFault};

/// Memory is kept in one way: what has the same bytes is the same.
pub fn one_memory()
    ensures { OneMemory }
{}

/// A file spells at most one snapshot.
pub fn one_snapshot()
    ensures { OneSnapshot }
{}

/// Each file spells a snapshot, or has a fault.
pub fn a_file_is_spelled_or_at_fault()
    ensures { HaveReading }
{}

/// A file that spells a snapshot is refused only where memory runs out.
pub fn a_spelled_file_has_no_fault()
    ensures { HaveNoFault }
{}

/// A file has at most one fault.
pub fn a_file_has_at_most_one_fault()
    ensures { HaveOneFault }
{}

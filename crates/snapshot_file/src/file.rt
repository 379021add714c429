//! Whole snapshot files.
ghost use Rattle.snapshot_file.specs.Claims.{IsReading};

use crate::fault::SnapErr;
use crate::snapshot::{Snapshot, read_snapshot};
use std::alloc::Global;

/// The snapshot that the file spells, or its first fault: the first line that breaks a rule with the lowest rule that it
/// breaks, or the first line of memory that overlaps. Lines are counted from 1. Takes memory.
pub fn read(alloc: Global, bytes: &[u8]) -> Result<Snapshot, SnapErr>
    ensures { IsReading bytes.now result }
{
    read_snapshot(alloc, bytes)
}

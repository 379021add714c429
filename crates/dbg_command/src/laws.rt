//! Theorems on runs and on what they print. These functions do nothing: their contracts are the theorems.
ghost use Rattle.layout_file.specs.Claims.{SpellOne, HaveReading as HaveLayoutReading, HaveNoFault as HaveNoLayoutError, HaveOneFault as HaveOneLayoutError};
ghost use Rattle.bundle_reader.specs.Readings.{HaveReading as HaveBundleReading, HaveOneReading as HaveOneBundleReading};
ghost use Rattle.snapshot_file.specs.Claims.{HaveReading as HaveSnapshotReading, HaveNoFault as HaveNoSnapshotError, HaveOneFault as HaveOneSnapshotError};
ghost use Rattle.snapshot_file.specs.Snapshots.{OneSnapshot};
ghost use Rattle.dbg_command.specs.OneEnding.{OneEnding, SomeEnding, AcceptedAreAnswered};
ghost use Rattle.dbg_command.specs.SamePrint.{PrintsSame};

use layout_set::a_set_has_at_most_one_first_breach;
use value_reader::one_value;

/// A layout file is read in at most one way.
fn layouts_have_one_reading()
    ensures set { SpellOne }
    ensures spelled { HaveNoLayoutError }
    ensures error { HaveOneLayoutError }
{
    layout_file::a_file_spells_one_set();
    layout_file::a_spelled_file_has_no_fault();
    layout_file::a_file_has_at_most_one_fault();
}

/// A snapshot file is read in at most one way.
fn snapshots_have_one_reading()
    ensures snapshot { OneSnapshot }
    ensures spelled { HaveNoSnapshotError }
    ensures error { HaveOneSnapshotError }
{
    snapshot_file::one_snapshot();
    snapshot_file::a_spelled_file_has_no_fault();
    snapshot_file::a_file_has_at_most_one_fault();
}

/// A bundle is read in at most one way.
fn bundles_have_one_reading()
    ensures { HaveOneBundleReading }
{
    bundle_reader::a_bundle_is_read_one_way();
}

/// No bundle is without a reading.
fn bundles_have_a_reading()
    ensures { HaveBundleReading }
{
    bundle_reader::a_bundle_has_a_reading();
}

/// A layout file is read in some way.
fn layouts_have_a_reading()
    ensures { HaveLayoutReading }
{
    layout_file::a_file_is_spelled_or_at_fault();
}

/// A snapshot file is read in some way.
fn snapshots_have_a_reading()
    ensures { HaveSnapshotReading }
{
    snapshot_file::a_file_is_spelled_or_at_fault();
}

/// Words and told files lead to at most one status, output and message; of `emit` to bundles that describe one set.
pub fn a_run_has_one_ending()
    ensures { OneEnding }
{
    layouts_have_one_reading();
    snapshots_have_one_reading();
    bundles_have_one_reading();
    one_value();
    a_set_has_at_most_one_first_breach();
}

/// No words and told files are without a status, an output and a message, those of `emit` aside.
pub fn a_run_has_an_ending()
    ensures { SomeEnding }
{
    layouts_have_a_reading();
    snapshots_have_a_reading();
    bundles_have_a_reading();
}

/// Where each file of a command is there, within its limit and accepted, and no read and no write failed, a run
/// ends with status 0 and the whole answer, or out of memory. The set for `emit` has no functions.
pub fn accepted_files_are_answered()
    ensures { AcceptedAreAnswered }
{
    layouts_have_one_reading();
    snapshots_have_one_reading();
    bundles_have_one_reading();
    one_value();
    a_set_has_at_most_one_first_breach();
}

/// Where CodeView carries the place of each variable that is printed, a lawful set and the part of it that CodeView
/// carries print the same.
#[tactic(auto, using(crate::proofs::SamePrint::prints_same))]
pub fn codeview_prints_the_same()
    ensures { PrintsSame }
{}

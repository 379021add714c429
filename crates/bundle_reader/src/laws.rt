//! Theorems, each the contract of a call that does nothing.
ghost use Rattle.bundle_reader.specs.Readings.{HaveOneReading, HaveReading};

use bundle_file::a_file_is_read_one_way;
use dwarf_info::{sections_have_a_description, sections_have_one_description};

/// A bundle file describes at most one set, has at most one first error, and never both.
pub fn a_bundle_is_read_one_way()
    ensures { HaveOneReading }
{
    a_file_is_read_one_way();
    sections_have_one_description();
}

/// No bundle file is without a set that it describes or a first error.
pub fn a_bundle_has_a_reading()
    ensures { HaveReading }
{
    a_file_is_read_one_way();
    sections_have_a_description();
}

//! Theorems on bundle files, each the contract of a call that does nothing.
ghost use Rattle.bundle_file.specs.Laws.{FilesHaveOneReading};

/// Each file spells one bundle, or has one first invalid item that breaks one rule, and never both. So
/// [`read_bundle`](crate::read_bundle) has one answer, if memory lasts, and gives back what
/// [`write_bundle`](crate::write_bundle) wrote.
pub fn a_file_is_read_one_way()
    ensures { FilesHaveOneReading }
{}

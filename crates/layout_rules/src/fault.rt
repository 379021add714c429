//! Where a line stands.
use layout_lines::OpenEntry;
use layout_set::Set;

/// What stands before a line.
#[derive(Clone, Copy)]
pub enum Front<'a> {
    /// Nothing.
    First,
    /// The version.
    Second,
    /// The text of a set, and of the entry that stands open behind it.
    Behind(&'a Set, Option<&'a OpenEntry>),
}

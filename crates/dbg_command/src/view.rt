//! What is printed of, and how much of it.
use layout_set::Set;
use snapshot_file::Snapshot;

/// A set over a snapshot, how deep references and boxes are followed, and how many elements of each sequence are shown at
/// most.
#[derive(Clone, Copy)]
pub(crate) struct View<'a> {
    pub(crate) set: &'a Set,
    pub(crate) snap: &'a Snapshot,
    pub(crate) depth: u32,
    pub(crate) width: u32,
}

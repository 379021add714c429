//! What parts are read in.
use layout_set::Set;
use snapshot_file::Mem;

/// What parts are read in: a set whose types have sizes, the memory, and how many elements are shown at most.
#[derive(Clone, Copy)]
pub(crate) struct Context<'a> {
    pub(crate) set: &'a Set,
    pub(crate) mem: &'a Mem,
    pub(crate) width: u32,
}

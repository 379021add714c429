//! What an index leads to.

/// Where the index of a type leads, through LF_MODIFIERs and from forward references on to their complete
/// records.
#[derive(Clone, Copy, Debug)]
pub enum Target {
    /// A simple type, by its index.
    Simple(u32),
    /// The record at this place among all records, which is neither an LF_MODIFIER nor a forward
    /// reference.
    Record(usize),
    /// The number of the rule that is broken.
    Broken(u8),
}

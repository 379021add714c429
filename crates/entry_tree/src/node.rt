//! An entry of debug information, with its links.

/// An entry, by its abbreviation and the entries next to it in the tree (DWARF 5, 2.1 and 2.3).
#[derive(Clone, Copy, Debug, PartialEq, Eq)]
pub struct Node {
    /// Where the entry begins, in bytes from the start of `.debug_info`.
    pub offset: u64,
    /// The number of the unit, from 0.
    pub unit: u32,
    /// The code of its abbreviation in the unit's table (DWARF 5, 7.5.3).
    pub code: u64,
    /// What it describes, DW_TAG (DWARF 5, 7.5.3).
    pub tag: u64,
    /// The number of its first child.
    pub first: Option<u32>,
    /// The number of the next child of its parent, or of the next root.
    pub next: Option<u32>,
    /// The number of its parent; a root has none.
    pub up: Option<u32>,
}

//! Entries that are not yet read whole.
use layout_set::Piece;
use rv_io::List;

/// An entry of `count` pieces, of which some are still to come.
#[derive(Drop)]
pub struct OpenEntry {
    pub lo: u64,
    pub hi: u64,
    pub count: u32,
    pub pieces: List<Piece>,
}

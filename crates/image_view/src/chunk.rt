//! Chunks of a view.
use rv_io::List;

/// Where the bytes of a chunk come from.
#[derive(Clone, Copy, Debug)]
pub enum Src<'a> {
    /// The bytes of memory from an address on.
    Mem(u64),
    /// The first bytes of a slice.
    Bytes(&'a [u8]),
    /// The bytes of a number, low byte first.
    Num(u64),
    /// No bytes.
    Missing,
}

/// `len` places from `off` on.
#[derive(Clone, Copy, Debug)]
pub struct Chunk<'a> {
    pub off: u32,
    pub len: u32,
    pub src: Src<'a>,
}

/// What a view is of: memory from an address on, or chunks.
#[derive(Clone, Copy)]
pub(crate) enum Source<'a> {
    Memory(u64),
    Chunks(&'a List<Chunk<'a>>),
}

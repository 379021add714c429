//! Views.
ghost use Rattle.std.specs.Prelude.{◌≡◌, ◌≤◌, ◌<◌, ◌+◌, ◌^◌, length, take, drop, IfSome, MatchOption, None, Some};
ghost use Rattle.snapshot_file.specs.Memory.{number, bytes_of, items_at};
ghost use Rattle.image_view.specs.Places.{Rise, Rises, places, part_of, InOneChunk};

use crate::chunk::{Chunk, Source};
use crate::numbers::number_at;
use crate::whole::whole_bytes;
use rv_io::List;
use snapshot_file::Mem;
use std::marker::Model;

/// Places, each a byte or missing, borrowed from memory or from chunks.
#[derive(Drop)]
pub struct Image<'a> {
    mem: &'a Mem,
    source: Source<'a>,
    from: u32,
    len: u32,
}

impl<'a> Model for Image<'a> {
    ghost use Rattle.std.specs.Prelude.{List, ◌+◌, ◌<◌, ◌^◌};
    ghost use Rattle.image_view.specs.Places.{Place, places, Rises};

    ghost Value = { List Place };

    ghost view = { λ s. places s.mem.now s.source s.from s.len };

    ghost invariant = { λ s. (s.from + s.len < 2 ^ 32) × Rises s.source };
}

impl<'a> Image<'a> {
    ghost use Rattle.image_view.specs.declared.chunk.Source.TheVariants.{Memory as OfMemory, Chunks as OfChunks};

    /// The bytes of memory from an address on; those past 2^64 - 1 are missing. Takes no memory.
    pub fn of_mem(mem: &'a Mem, at: u64, len: u32) -> Image<'a>
        ensures places { result ≡ places mem.now (OfMemory at) 0 len }
        ensures part { part_of result ≡ items_at mem.now at len }
    {
        Image {
            mem,
            source: Source::Memory(at),
            from: 0,
            len,
        }
    }

    /// The first `len` places of chunks, of which each begins at or past the end of the one before; what no chunk gives
    /// is missing. Takes no memory.
    pub fn of_chunks(mem: &'a Mem, chunks: &'a List<Chunk<'a>>, len: u32) -> Image<'a>
        requires { Rise 0 chunks.now }
        ensures { result ≡ places mem.now (OfChunks chunks.entry) 0 len }
    {
        Image {
            mem,
            source: Source::Chunks(chunks),
            from: 0,
            len,
        }
    }

    /// The number of places. Takes no memory.
    pub fn len(&self) -> u32
        ensures { result ≡ length self.now }
    {
        self.len
    }

    /// The `len` places from `off` on. Takes no memory.
    pub fn part(&self, off: u32, len: u32) -> Image<'a>
        requires { off + len ≤ length self.now }
        ensures { result ≡ take len (drop off self.now) }
    {
        Image {
            mem: self.mem,
            source: self.source,
            from: self.from + off,
            len,
        }
    }

    /// The little-endian number of the `width` places from `off` on; None exactly where one of them is missing.
    /// Takes no memory.
    pub fn number(&self, off: u32, width: u32) -> Option<u128>
        requires narrow { width ≤ 16 }
        requires within { off + width ≤ length self.now }
        ensures number { result ≡ number (part_of (take width (drop off self.now))) }
        ensures bound { IfSome result (λ n. n < 256 ^ width) }
    {
        number_at(self.mem, self.source, self.from + off, width)
    }

    /// All bytes, borrowed; None exactly where a place is missing, or the places stand in two chunks or in a number.
    /// Takes no memory.
    pub fn whole(&self) -> Option<&'a [u8]>
        ensures { MatchOption result (InOneChunk self.now → bytes_of (part_of self.now) ≡ None) (λ b. InOneChunk self.now × (bytes_of (part_of self.now) ≡ Some b.now)) }
    {
        whole_bytes(self.mem, self.source, self.from, self.len)
    }
}

//! All bytes of a view, where they stand in one chunk.
ghost use Rattle.std.specs.Prelude.{◌≡◌, ◌≤◌, ◌<◌, ◌+◌, ◌^◌, MatchOption, None, Some, false};
ghost use Rattle.std.specs.Option.{option_copied};
ghost use Rattle.snapshot_file.specs.Memory.{bytes_of, items_at};
ghost use Rattle.image_view.specs.Places.{Rise, Rises, slice_items, items_from, is_number, places, chunk_places, part_of, InOneChunk};

use crate::chunk::{Chunk, Source, Src};
use crate::covering::covering;
use snapshot_file::Mem;

/// The `len` bytes of memory that begin `off` past an address.
fn memory_bytes(mem: &Mem, at: u64, off: u32, len: u32) -> Option<&[u8]>
    requires { 0 < len }
    ensures { option_copied result ≡ bytes_of (items_at mem.now (at + off) len) }
{
    match at.checked_add(u64::from(off)) {
        Some(at) => mem.bytes(at, u64::from(len)),
        None => None,
    }
}

/// The `len` bytes of a slice from `off` on.
fn slice_bytes(bytes: &[u8], off: u32, len: u32) -> Option<&[u8]>
    requires some { 0 < len }
    ensures { option_copied result ≡ bytes_of (slice_items bytes.now off len) }
{
    let (off, len) = (off as usize, len as usize);
    if off + len <= bytes.len() {
        Some(&bytes[off..off + len])
    } else {
        None
    }
}

/// The `len` bytes of what a chunk takes from, from `off` on; numbers have none.
fn src_bytes<'a>(mem: &'a Mem, src: Src<'a>, off: u32, len: u32) -> Option<&'a [u8]>
    requires { 0 < len }
    ensures { MatchOption result (is_number src.entry ≡ false → bytes_of (items_from mem.now src.entry off len) ≡ None) (λ b. (is_number src.entry ≡ false) × (bytes_of (items_from mem.now src.entry off len) ≡ Some b.now)) }
{
    match src {
        Src::Mem(at) => memory_bytes(mem, at, off, len),
        Src::Bytes(bytes) => slice_bytes(bytes, off, len),
        Src::Num(_) => None,
        Src::Missing => None,
    }
}

/// All bytes of places of chunks.
fn chunk_bytes<'a>(mem: &'a Mem, chunks: &[Chunk<'a>], from: u32, len: u32) -> Option<&'a [u8]>
    requires some { 0 < len }
    requires rise { Rise 0 chunks.now }
    ensures { MatchOption result (InOneChunk (chunk_places mem.now chunks.now from len) → bytes_of (part_of (chunk_places mem.now chunks.now from len)) ≡ None) (λ b. InOneChunk (chunk_places mem.now chunks.now from len) × (bytes_of (part_of (chunk_places mem.now chunks.now from len)) ≡ Some b.now)) }
{
    let Some(number) = covering(chunks, from) else {
        return None;
    };
    let chunk = chunks[number];
    let off = from - chunk.off;
    if len > chunk.len - off {
        return None;
    }
    src_bytes(mem, chunk.src, off, len)
}

/// All bytes of a view's places.
pub(crate) fn whole_bytes<'a>(
    mem: &'a Mem,
    source: Source<'a>,
    from: u32,
    len: u32,
) -> Option<&'a [u8]>
    requires { Rises source }
    ensures { MatchOption result (InOneChunk (places mem.now source.entry from len) → bytes_of (part_of (places mem.now source.entry from len)) ≡ None) (λ b. InOneChunk (places mem.now source.entry from len) × (bytes_of (part_of (places mem.now source.entry from len)) ≡ Some b.now)) }
{
    if len == 0 {
        return Some(&[]);
    }
    match source {
        Source::Memory(at) => memory_bytes(mem, at, from, len),
        Source::Chunks(chunks) => chunk_bytes(mem, chunks.as_slice(), from, len),
    }
}

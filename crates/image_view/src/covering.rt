//! The chunk that has a place, found by halving.
ghost use Rattle.std.specs.Prelude.{◌≡◌, ◌≤◌, ◌<◌, length, MatchOption};
ghost use Rattle.std.specs.List.Sorted.{IsNonDecreasingBy, IsPartitionPoint};
ghost use Rattle.image_view.specs.Places.{Rise, Rises, Uncovered, CoveredBy, item_of, chunk_place, place};

use crate::chunk::{Chunk, Source, Src};
use snapshot_file::Mem;

/// How many chunks begin at or below the place, where they rise.
fn begun(chunks: &[Chunk<'_>], place: u32) -> usize
    requires { IsNonDecreasingBy (λ c. c.off) chunks.now }
    ensures parted { IsPartitionPoint (λ c. c.off ≤ place) (λ c. place < c.off) chunks.now result }
    ensures count { result ≤ length chunks.now }
{
    chunks.partition_point(|chunk| chunk.off <= place)
}

/// The number of the chunk that has the place.
pub(crate) fn covering(chunks: &[Chunk<'_>], place: u32) -> Option<usize>
    requires { Rise 0 chunks.now }
    ensures { MatchOption result (Uncovered chunks.now place) (λ k. CoveredBy chunks.now place k) }
{
    let count = begun(chunks, place);
    if count == 0 {
        return None;
    }
    let chunk = chunks[count - 1];
    if place - chunk.off < chunk.len {
        Some(count - 1)
    } else {
        None
    }
}

/// Item `at` of what a chunk takes from.
fn item_of(mem: &Mem, src: Src<'_>, at: u32) -> Option<u8>
    ensures { result ≡ item_of mem.now src.entry at }
{
    match src {
        Src::Mem(from) => match from.checked_add(u64::from(at)) {
            Some(address) => mem.byte(address),
            None => None,
        },
        Src::Bytes(bytes) => bytes.get(at as usize).copied(),
        Src::Num(number) => {
            let bytes = number.to_le_bytes();
            if at < 8 {
                Some(bytes[at as usize])
            } else {
                None
            }
        }
        Src::Missing => None,
    }
}

/// The item at a place of chunks.
fn chunk_item(mem: &Mem, chunks: &[Chunk<'_>], at: u32) -> Option<u8>
    requires { Rise 0 chunks.now }
    ensures { result ≡ (chunk_place mem.now chunks.now 0 at).item }
{
    match covering(chunks, at) {
        Some(number) => {
            let chunk = chunks[number];
            item_of(mem, chunk.src, at - chunk.off)
        }
        None => None,
    }
}

/// The item at a place.
pub(crate) fn item(mem: &Mem, source: Source<'_>, at: u32) -> Option<u8>
    requires { Rises source }
    ensures { result ≡ (place mem.now source.entry at).item }
{
    match source {
        Source::Memory(from) => item_of(mem, Src::Mem(from), at),
        Source::Chunks(chunks) => chunk_item(mem, chunks.as_slice(), at),
    }
}

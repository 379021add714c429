//! Where a variable is while its program is paused.
ghost use Rattle.std.specs.Prelude.{◌≡◌, option_map, IfOk, IfSome, length};
ghost use Rattle.image_view.specs.Places.{Rise, chunk_places, part_of};
ghost use Rattle.layout_set.specs.declared.func.Loc.TheVariants.{Pieces};
ghost use Rattle.layout_values.specs.Places.{entry_at, place_items, loc_items, place_of};

use crate::located::Located;
use crate::sources::{of_piece, of_place};
use image_view::Chunk;
use layout_set::{Entry, Loc, Piece, Place};
use rv_io::{List, Memory};
use snapshot_file::Snapshot;
use std::alloc::Global;

/// The first entry that tells of the program counter.
fn entry_at(entries: &[Entry], pc: u64) -> Option<&Entry>
    ensures { option_map (λ e. e.now) result ≡ entry_at pc entries.now }
{
    entries.iter().find(|entry| entry.lo <= pc && pc < entry.hi)
}

/// The one chunk of a place.
fn whole_chunk<'a>(
    alloc: Global,
    place: &'a Place,
    size: u32,
    snap: &'a Snapshot,
) -> Result<List<Chunk<'a>>, Memory>
    ensures rise { IfOk result (Rise 0) }
    ensures part { IfOk result (λ chunks. part_of (chunk_places snap.now.mem chunks 0 size) ≡ place_items 8 snap.now place.now size) }
{
    let mut chunks = List::new(alloc);
    chunks.push(Chunk {
        off: 0,
        len: size,
        src: of_place(place, snap),
    })?;
    Ok(chunks)
}

/// A chunk for each piece, cut at `size`.
fn piece_chunks<'a>(
    alloc: Global,
    pieces: &'a [Piece],
    size: u32,
    snap: &'a Snapshot,
) -> Result<List<Chunk<'a>>, Memory>
    ensures rise { IfOk result (Rise 0) }
    ensures part { IfOk result (λ chunks. part_of (chunk_places snap.now.mem chunks 0 size) ≡ loc_items 8 snap.now (Pieces pieces.now) size) }
{
    let mut chunks = List::new(alloc);
    let mut off: u32 = 0;
    for piece in pieces {
        let len = piece.size.min(size - off);
        let src = of_piece(&piece.place, snap);
        chunks.push(Chunk { off, len, src })?;
        off += len;
    }
    Ok(chunks)
}

/// `size` bytes of a location.
fn located<'a>(
    alloc: Global,
    loc: &'a Loc,
    size: u32,
    snap: &'a Snapshot,
) -> Result<Located<'a>, Memory>
    ensures part { IfOk result (λ l. part_of l ≡ loc_items 8 snap.now loc.now size) }
    ensures size { IfOk result (λ l. length l ≡ size) }
{
    let chunks = match loc {
        Loc::Whole(place) => whole_chunk(alloc, place, size, snap)?,
        Loc::Pieces(pieces) => piece_chunks(alloc, pieces.as_slice(), size, snap)?,
    };
    Ok(Located {
        mem: &snap.mem,
        chunks,
        len: size,
    })
}

/// Where a variable of `size` bytes is, by the first entry that tells of the program counter; None exactly where no entry
/// does. What is missing, and what no piece reaches, are places without a byte.
pub fn locate<'a>(
    alloc: Global,
    entries: &'a List<Entry>,
    size: u32,
    snap: &'a Snapshot,
) -> Result<Option<Located<'a>>, Memory>
    // The places are those of the first entry that tells of the program counter, if one does.
    ensures places { IfOk result (λ found. option_map (λ l. part_of l) found ≡ place_of 8 snap.now entries.now size) }

    // There are `size` of them.
    ensures size { IfOk result (λ found. IfSome found (λ l. length l ≡ size)) }
{
    match entry_at(entries.as_slice(), snap.pc) {
        None => Ok(None),
        Some(entry) => Ok(Some(located(alloc, &entry.loc, size, snap)?)),
    }
}

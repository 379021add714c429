//! Which places of variables CodeView carries.
ghost use Rattle.std.specs.Prelude.{◌≡◌, IfOk, if◌then◌else◌, Some, None};
ghost use Rattle.std.specs.List.{filter};
ghost use Rattle.layout_carried.specs.Carried.{place_carries, place_carries_if, pieces_carry, loc_carries, entry_carries};

use layout_set::{Entry, Loc, Piece, Place};
use rv_io::{List, Memory};
use std::alloc::Global;

/// The place, if it is carried. Takes no memory.
fn carried_place(place: &Place) -> Option<Place>
    ensures { result ≡ if place_carries place.now then Some place.now else None }
{
    match place {
        Place::Reg(reg) => Some(Place::Reg(*reg)),
        Place::Mem(reg, off) => Some(Place::Mem(*reg, *off)),
        Place::Fixed(_) | Place::Value(_) | Place::Expr(_) => None,
    }
}

/// The piece, if it has a place that is carried. Takes no memory.
fn carried_piece(piece: &Piece) -> Option<Piece>
    ensures { result ≡ if place_carries_if piece.now.place then Some piece.now else None }
{
    match &piece.place {
        None => None,
        Some(place) => match carried_place(place) {
            None => None,
            Some(place) => Some(Piece {
                size: piece.size,
                place: Some(place),
            }),
        },
    }
}

/// The pieces, if all are carried.
fn carried_pieces(alloc: Global, pieces: &[Piece]) -> Result<Option<List<Piece>>, Memory>
    ensures { IfOk result (λ found. found ≡ if pieces_carry 0 pieces.now then Some pieces.now else None) }
{
    let mut found = List::new(alloc);
    let mut off: u64 = 0;
    for piece in pieces {
        if off >= 4096 {
            return Ok(None);
        }
        match carried_piece(piece) {
            None => return Ok(None),
            Some(carried) => found.push(carried)?,
        }
        off += u64::from(piece.size);
    }
    Ok(Some(found))
}

/// The location, if it is carried.
fn carried_loc(alloc: Global, loc: &Loc) -> Result<Option<Loc>, Memory>
    ensures { IfOk result (λ found. found ≡ if loc_carries loc.now then Some loc.now else None) }
{
    match loc {
        Loc::Whole(place) => match carried_place(place) {
            None => Ok(None),
            Some(place) => Ok(Some(Loc::Whole(place))),
        },
        Loc::Pieces(pieces) => match carried_pieces(alloc, pieces.as_slice())? {
            None => Ok(None),
            Some(pieces) => Ok(Some(Loc::Pieces(pieces))),
        },
    }
}

/// The entry, if it is carried.
fn carried_entry(alloc: Global, entry: &Entry) -> Result<Option<Entry>, Memory>
    ensures { IfOk result (λ found. found ≡ if entry_carries entry.now then Some entry.now else None) }
{
    match carried_loc(alloc, &entry.loc)? {
        None => Ok(None),
        Some(loc) => Ok(Some(Entry {
            lo: entry.lo,
            hi: entry.hi,
            loc,
        })),
    }
}

/// The entries that are carried.
pub(crate) fn carried_entries(alloc: Global, entries: &[Entry]) -> Result<List<Entry>, Memory>
    ensures { IfOk result (λ found. found ≡ filter entry_carries entries.now) }
{
    let mut found = List::new(alloc);
    for entry in entries {
        match carried_entry(alloc, entry)? {
            None => {}
            Some(carried) => found.push(carried)?,
        }
    }
    Ok(found)
}

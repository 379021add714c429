//! Places and pieces that may hold a value of so many bytes.
ghost use Rattle.std.specs.Prelude.{◌≡◌, ◌-◌, ◌^◌, ◌≤◌, length, min};
ghost use Rattle.std.specs.Bool.{Decides};
ghost use Rattle.std.specs.List.{All, sum_by};
ghost use Rattle.layout_set.specs.declared.func.Loc.TheVariants.{Pieces};
ghost use Rattle.layout_set.specs.Law13.{IsPlainSum, MayHold, HasRoom, IsPiece, IsLocation};

use expr_eval::Op;
use layout_set::{Loc, Piece, Place};

/// The most bytes that a place may tell.
const MOST_TOLD: usize = 64;

/// Whether the operations are one sum that a place in memory could say.
fn is_plain_sum(ops: &[Op]) -> bool
    ensures { Decides result (IsPlainSum ops.now) }
{
    match ops {
        [Op::RegPlus(_, number)] => i32::try_from(*number).is_ok(),
        _ => false,
    }
}

/// Whether these are the bytes of a value of this size, and are at most 64.
fn may_tell(bytes: usize, told: &[u8]) -> bool
    ensures { Decides result ((length told.now ≡ bytes) × (bytes ≤ 64)) }
{
    told.len() == bytes && bytes <= MOST_TOLD
}

/// Whether the place may be told of a value, or of a piece, of so many bytes.
fn may_hold(bytes: u32, place: &Place) -> bool
    ensures { Decides result (MayHold bytes place.now) }
{
    match place {
        Place::Reg(_) | Place::Fixed(_) => true,
        Place::Mem(reg, _) => reg.width() == 8,
        Place::Value(text) => may_tell(bytes as usize, text.as_bytes()),
        Place::Expr(ops) => !is_plain_sum(ops.as_slice()),
    }
}

/// Whether the place has room for so many bytes, if it is a register.
fn has_room(bytes: u32, place: &Place) -> bool
    ensures { Decides result (HasRoom bytes place.now) }
{
    match place {
        Place::Reg(reg) => bytes <= reg.width(),
        _ => true,
    }
}

/// Whether the piece has a byte at least, and its place may give that many.
fn is_piece(piece: &Piece) -> bool
    ensures { Decides result (IsPiece piece.now) }
{
    if piece.size == 0 {
        return false;
    }
    match &piece.place {
        Some(place) => may_hold(piece.size, place) && has_room(piece.size, place),
        None => true,
    }
}

/// Whether each piece has a byte at least, and its place may give that many.
fn are_pieces(pieces: &[Piece]) -> bool
    ensures { Decides result (All IsPiece pieces.now) }
{
    for piece in pieces {
        if !is_piece(piece) {
            return false;
        }
    }
    true
}

/// The number of bytes of all pieces, which stands still at the end of its type.
fn bytes_of_pieces(pieces: &[Piece]) -> u64
    ensures { result ≡ min (sum_by (λ p. p.size) pieces.now) (2 ^ 64 - 1) }
{
    let mut bytes: u64 = 0;
    for piece in pieces {
        bytes = bytes.saturating_add(u64::from(piece.size));
    }
    bytes
}

/// Whether there are pieces, which add up to so many bytes.
fn make_up(bytes: u32, pieces: &[Piece]) -> bool
    ensures { Decides result (IsLocation bytes (Pieces pieces.now)) }
{
    if pieces.is_empty() || !are_pieces(pieces) {
        return false;
    }
    bytes_of_pieces(pieces) == u64::from(bytes)
}

/// Whether this is a location of a value of so many bytes. Takes no memory.
pub(crate) fn is_location(bytes: u32, loc: &Loc) -> bool
    ensures { Decides result (IsLocation bytes loc.now) }
{
    match loc {
        Loc::Whole(place) => may_hold(bytes, place),
        Loc::Pieces(pieces) => make_up(bytes, pieces.as_slice()),
    }
}

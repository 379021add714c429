//! What the bytes at a place are taken from.
ghost use Rattle.std.specs.Prelude.{◌≡◌, ℕ, ◌+◌, ◌%◌, ◌^◌, length, Some};
ghost use Rattle.std.specs.Int.{cast_unsigned, w64};
ghost use Rattle.std.specs.Option.{option_map, option_copied};
ghost use Rattle.byteorder.specs.Endian.{little_number};
ghost use Rattle.expr_eval.specs.Results.{result_of};
ghost use Rattle.image_view.specs.Places.{items_from};
ghost use Rattle.layout_values.specs.Places.{given_if, memory_if, address_by, spot_items, place_items, place_items_if};

use byteorder::{ByteOrder, LittleEndian};
use expr_eval::{Spot, eval};
use image_view::Src;
use layout_set::Place;
use snapshot_file::{Reg, Snapshot};

/// The little-endian number of the bytes, modulo 2^64.
fn low_number(bytes: &[u8]) -> u64
    ensures { result ≡ little_number (length bytes.now) bytes.now % 2 ^ 64 }
{
    if bytes.is_empty() {
        return 0;
    }
    LittleEndian::read_uint(bytes, bytes.len().min(8))
}

/// The number so far past another, modulo 2^64.
fn displaced(number: u64, by: i32) -> u64
    ensures { result ≡ (number + cast_unsigned w64 by) % 2 ^ 64 }
{
    number.wrapping_add(i64::from(by).cast_unsigned())
}

/// The address so many bytes past the number in a register, modulo 2^64.
fn address_by(snap: &Snapshot, reg: Reg, n: i32) -> Option<u64>
    ensures { result ≡ address_by 8 snap.now reg n }
{
    match snap.regs.bytes(reg) {
        Some(bytes) => Some(displaced(low_number(bytes), n)),
        None => None,
    }
}

/// Bytes, low byte first, if they are there.
fn of_bytes(bytes: Option<&[u8]>) -> Src<'_>
    ensures { (n : ℕ) (snap : Snapshot) → items_from snap.mem result 0 n ≡ given_if (option_copied bytes.entry) n }
{
    match bytes {
        Some(bytes) => Src::Bytes(bytes),
        None => Src::Missing,
    }
}

/// Memory from an address on, if there is one.
fn of_address<'a>(at: Option<u64>) -> Src<'a>
    ensures { (n : ℕ) (snap : Snapshot) → items_from snap.mem result 0 n ≡ memory_if snap at n }
{
    match at {
        Some(at) => Src::Mem(at),
        None => Src::Missing,
    }
}

/// Memory at an address, or the eight bytes of a number.
fn of_spot<'a>(spot: Spot) -> Src<'a>
    ensures { (n : ℕ) (snap : Snapshot) → items_from snap.mem result 0 n ≡ spot_items 8 snap (Some spot) n }
{
    match spot {
        Spot::Address(at) => Src::Mem(at),
        Spot::Number(n) => Src::Num(n),
    }
}

/// What operations give, if they have a result.
fn of_spot_if<'a>(spot: Option<Spot>) -> Src<'a>
    ensures { (n : ℕ) (snap : Snapshot) → items_from snap.mem result 0 n ≡ spot_items 8 snap spot n }
{
    match spot {
        Some(spot) => of_spot(spot),
        None => Src::Missing,
    }
}

/// What the bytes at the place are taken from.
pub(crate) fn of_place<'a>(place: &'a Place, snap: &'a Snapshot) -> Src<'a>
    ensures { (n : ℕ) → items_from snap.now.mem result 0 n ≡ place_items 8 snap.now place.now n }
{
    match place {
        Place::Reg(reg) => of_bytes(snap.regs.bytes(*reg)),
        Place::Mem(reg, n) => of_address(address_by(snap, *reg, *n)),
        Place::Fixed(at) => Src::Mem(*at),
        Place::Value(text) => Src::Bytes(text.as_bytes()),
        Place::Expr(ops) => of_spot_if(eval(ops, snap)),
    }
}

/// What a piece's bytes are taken from.
pub(crate) fn of_piece<'a>(place: &'a Option<Place>, snap: &'a Snapshot) -> Src<'a>
    ensures { (n : ℕ) → items_from snap.now.mem result 0 n ≡ place_items_if 8 snap.now place.now n }
{
    match place {
        Some(place) => of_place(place, snap),
        None => Src::Missing,
    }
}

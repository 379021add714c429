//! The number of places: read at once where the bytes stand in one chunk, and place by place elsewhere.
ghost use Rattle.std.specs.Prelude.{◌≡◌, ◌≤◌, ◌<◌, ◌+◌, ◌^◌, length, IfSome};
ghost use Rattle.byteorder.specs.Endian.{little_number};
ghost use Rattle.snapshot_file.specs.Memory.{number};
ghost use Rattle.image_view.specs.Places.{Rises, places, part_of};

use crate::chunk::Source;
use crate::covering::item;
use crate::whole::whole_bytes;
use byteorder::{ByteOrder, LittleEndian};
use snapshot_file::Mem;

/// The little-endian number of the bytes.
fn bytes_number(bytes: &[u8]) -> u128
    requires { length bytes.now ≤ 16 }
    ensures number { result ≡ little_number (length bytes.now) bytes.now }
    ensures bound { result < 256 ^ length bytes.now }
{
    if bytes.is_empty() {
        return 0;
    }
    LittleEndian::read_uint128(bytes, bytes.len())
}

/// The little-endian number of so many places from one on, place by place.
fn number_by_places(mem: &Mem, source: Source<'_>, from: u32, width: u32) -> Option<u128>
    requires rises { Rises source }
    requires narrow { width ≤ 16 }
    requires within { from + width < 2 ^ 32 }
    ensures number { result ≡ number (part_of (places mem.now source.entry from width)) }
    ensures bound { IfSome result (λ n. n < 256 ^ width) }
{
    let mut n: u128 = 0;
    for i in (0..width).rev() {
        let Some(low) = item(mem, source, from + i) else {
            return None;
        };
        n = n * 256 + u128::from(low);
    }
    Some(n)
}

/// The little-endian number of so many places from one on.
pub(crate) fn number_at(mem: &Mem, source: Source<'_>, from: u32, width: u32) -> Option<u128>
    requires rises { Rises source }
    requires narrow { width ≤ 16 }
    requires within { from + width < 2 ^ 32 }
    ensures number { result ≡ number (part_of (places mem.now source.entry from width)) }
    ensures bound { IfSome result (λ n. n < 256 ^ width) }
{
    match whole_bytes(mem, source, from, width) {
        Some(bytes) => Some(bytes_number(bytes)),
        None => number_by_places(mem, source, from, width),
    }
}

//! Offsets by their indexes (DWARF 5, 7.26, 7.28 and 7.29).
ghost use Rattle.std.specs.Prelude.{◌≡◌, ℕ, IfSome, IfNone};
ghost use Rattle.dwarf_lists.specs.Offsets.{offset_place, HasOffset};

use rv_bytes::Cut;

/// How many bytes an offset has, in 32-bit DWARF.
const OFFSET_SIZE: u64 = 4;

/// The place of the offset at an index; 2^64 - 1 where it would pass it.
pub(crate) fn offset_place(base: u64, index: u64) -> u64
    ensures { result ≡ offset_place base index }
{
    base.saturating_add(index.saturating_mul(OFFSET_SIZE))
}

/// The offset at an index; None where it isn't there whole.
pub(crate) fn offset_at(offsets: &[u8], base: u64, index: u64) -> Option<u32>
    ensures stands { IfSome result (HasOffset offsets.now base index) }
    ensures nowhere { IfNone result ((offset : ℕ) → ¬ HasOffset offsets.now base index offset) }
{
    let at = offset_place(base, index);
    if at >= offsets.len() as u64 {
        return None;
    }
    let mut cut = Cut::from_place(offsets, at as usize);
    match cut.u32() {
        Ok(offset) => Some(offset),
        Err(_) => None,
    }
}

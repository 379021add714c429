//! Lists by their indexes (DWARF 5, 7.28 and 7.29).
ghost use Rattle.std.specs.Prelude.{ℕ, IfSome, IfNone};
ghost use Rattle.dwarf_lists.specs.Places.{HasList};

use crate::offsets::offset_at;

/// The place of the list that a loclistx or a rnglistx names, in bytes from the start of `section`, which is
/// the whole of `.debug_loclists` or of `.debug_rnglists`. `base` is the unit's loclists_base or
/// rnglists_base: at `base` + 4 * `index` is the list's offset from the base, of 4 bytes (DWARF 5, 7.28 and
/// 7.29). None exactly where the offset isn't there whole, or leads to the section's end or after it. Takes
/// no memory.
pub fn indexed_list(section: &[u8], base: u64, index: u64) -> Option<u64>
    ensures place { IfSome result (HasList section.now base index) }
    ensures nowhere { IfNone result ((at : ℕ) → ¬ HasList section.now base index at) }
{
    let offset = offset_at(section, base, index)?;
    let at = base.checked_add(u64::from(offset))?;
    if at < section.len() as u64 {
        Some(at)
    } else {
        None
    }
}

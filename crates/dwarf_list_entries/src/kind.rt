//! The kinds of entries (DWARF 5, 7.7.3 and 7.25).
ghost use Rattle.std.specs.Prelude.{◌≡◌};
ghost use Rattle.dwarf_list_entries.specs.Kinds.{location_kind, range_kind, has_expression};

use crate::{lle, rle};

/// What an entry is, by the names of the standard (DWARF 5, 2.6.2 and 2.17.3).
#[derive(Clone, Copy, Debug, PartialEq, Eq)]
pub enum Kind {
    /// The list ends.
    EndOfList,
    /// The base for offsets, by the index of its address.
    BaseAddressx,
    /// The indexes of the first address and of the end.
    StartxEndx,
    /// The index of the first address, and how many bytes follow.
    StartxLength,
    /// Two offsets from the base.
    OffsetPair,
    /// The base for offsets.
    BaseAddress,
    /// The first address and the end.
    StartEnd,
    /// The first address, and how many bytes follow.
    StartLength,
}

/// The kind of a location list's entry (DWARF 5, 7.7.3); None for a code that is none of those that are
/// read. `default_location` is none of them.
#[tactic(auto, unfolding(crate::specs::Kinds::location_kind))]
pub fn location_kind(code: u8) -> Option<Kind>
    ensures { result ≡ location_kind code }
{
    match code {
        lle::END_OF_LIST => Some(Kind::EndOfList),
        lle::BASE_ADDRESSX => Some(Kind::BaseAddressx),
        lle::STARTX_ENDX => Some(Kind::StartxEndx),
        lle::STARTX_LENGTH => Some(Kind::StartxLength),
        lle::OFFSET_PAIR => Some(Kind::OffsetPair),
        lle::BASE_ADDRESS => Some(Kind::BaseAddress),
        lle::START_END => Some(Kind::StartEnd),
        lle::START_LENGTH => Some(Kind::StartLength),
        _ => None,
    }
}

/// The kind of a range list's entry (DWARF 5, 7.25); None for a code that is none of those that are read.
#[tactic(auto, unfolding(crate::specs::Kinds::range_kind))]
pub fn range_kind(code: u8) -> Option<Kind>
    ensures { result ≡ range_kind code }
{
    match code {
        rle::END_OF_LIST => Some(Kind::EndOfList),
        rle::BASE_ADDRESSX => Some(Kind::BaseAddressx),
        rle::STARTX_ENDX => Some(Kind::StartxEndx),
        rle::STARTX_LENGTH => Some(Kind::StartxLength),
        rle::OFFSET_PAIR => Some(Kind::OffsetPair),
        rle::BASE_ADDRESS => Some(Kind::BaseAddress),
        rle::START_END => Some(Kind::StartEnd),
        rle::START_LENGTH => Some(Kind::StartLength),
        _ => None,
    }
}

/// Whether an entry of a location list has an expression after its operands: it has bounds.
pub fn has_expression(kind: Kind) -> bool
    ensures { result ≡ has_expression kind }
{
    !matches!(
        kind,
        Kind::EndOfList | Kind::BaseAddressx | Kind::BaseAddress
    )
}

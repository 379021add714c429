//! How the bytes of each form lie, and what they say (DWARF 5, 7.5.5 and 7.5.6).
ghost use Rattle.std.specs.Prelude.{◌≡◌, IfSome, is_some};
ghost use Rattle.dwarf_abbrev.specs.Encodings.{encoding_of, WidthFits};

use crate::form;

/// What a number says.
#[derive(Clone, Copy, Debug, PartialEq, Eq)]
pub(crate) enum NumberKind {
    Addr,
    AddrIndex,
    Unsigned,
    StrAt,
    LineStrAt,
    StrIndex,
    UnitRef,
    InfoRef,
    SecOffset,
    LocIndex,
    RangeIndex,
}

/// What bytes after their length say.
#[derive(Clone, Copy, Debug, PartialEq, Eq)]
pub(crate) enum BytesKind {
    Block,
    Expr,
}

/// How a form is encoded.
#[derive(Clone, Copy, Debug, PartialEq, Eq)]
pub(crate) enum Encoding {
    /// A number of so many bytes, the lowest first.
    Number(NumberKind, u8),
    /// An unsigned LEB128 number.
    Leb(NumberKind),
    /// A signed LEB128 number.
    SignedLeb,
    /// A number of 16 bytes.
    Wide,
    /// A length of so many bytes, and as many bytes as it says.
    Counted(BytesKind, u8),
    /// An unsigned LEB128 length, and as many bytes as it says.
    LebCounted(BytesKind),
    /// Bytes up to a zero byte.
    Text,
    /// One byte, which is 0 for false.
    FlagByte,
    /// No bytes: the flag is true.
    Present,
    /// No bytes: the declaration has the number.
    Implicit,
}

/// The encoding of a form; None where the code is none of the table's.
#[tactic(auto, unfolding(crate::specs::Encodings::encoding_of))]
pub(crate) fn encoding_of(form: u64) -> Option<Encoding>
    ensures encoding { result ≡ encoding_of form }
    ensures fits { IfSome result WidthFits }
{
    let encoding = match form {
        // The class address.
        form::ADDR => Encoding::Number(NumberKind::Addr, 8),
        form::ADDRX => Encoding::Leb(NumberKind::AddrIndex),
        form::ADDRX1 => Encoding::Number(NumberKind::AddrIndex, 1),
        form::ADDRX2 => Encoding::Number(NumberKind::AddrIndex, 2),
        form::ADDRX3 => Encoding::Number(NumberKind::AddrIndex, 3),
        form::ADDRX4 => Encoding::Number(NumberKind::AddrIndex, 4),
        // The class constant.
        form::DATA1 => Encoding::Number(NumberKind::Unsigned, 1),
        form::DATA2 => Encoding::Number(NumberKind::Unsigned, 2),
        form::DATA4 => Encoding::Number(NumberKind::Unsigned, 4),
        form::DATA8 => Encoding::Number(NumberKind::Unsigned, 8),
        form::DATA16 => Encoding::Wide,
        form::UDATA => Encoding::Leb(NumberKind::Unsigned),
        form::SDATA => Encoding::SignedLeb,
        form::IMPLICIT_CONST => Encoding::Implicit,
        // The class string.
        form::STRING => Encoding::Text,
        form::STRP => Encoding::Number(NumberKind::StrAt, 4),
        form::LINE_STRP => Encoding::Number(NumberKind::LineStrAt, 4),
        form::STRX => Encoding::Leb(NumberKind::StrIndex),
        form::STRX1 => Encoding::Number(NumberKind::StrIndex, 1),
        form::STRX2 => Encoding::Number(NumberKind::StrIndex, 2),
        form::STRX3 => Encoding::Number(NumberKind::StrIndex, 3),
        form::STRX4 => Encoding::Number(NumberKind::StrIndex, 4),
        // The class reference.
        form::REF1 => Encoding::Number(NumberKind::UnitRef, 1),
        form::REF2 => Encoding::Number(NumberKind::UnitRef, 2),
        form::REF4 => Encoding::Number(NumberKind::UnitRef, 4),
        form::REF8 => Encoding::Number(NumberKind::UnitRef, 8),
        form::REF_UDATA => Encoding::Leb(NumberKind::UnitRef),
        form::REF_ADDR => Encoding::Number(NumberKind::InfoRef, 4),
        // The class block.
        form::BLOCK1 => Encoding::Counted(BytesKind::Block, 1),
        form::BLOCK2 => Encoding::Counted(BytesKind::Block, 2),
        form::BLOCK4 => Encoding::Counted(BytesKind::Block, 4),
        form::BLOCK => Encoding::LebCounted(BytesKind::Block),
        // The class expression.
        form::EXPRLOC => Encoding::LebCounted(BytesKind::Expr),
        // The class list.
        form::SEC_OFFSET => Encoding::Number(NumberKind::SecOffset, 4),
        form::LOCLISTX => Encoding::Leb(NumberKind::LocIndex),
        form::RNGLISTX => Encoding::Leb(NumberKind::RangeIndex),
        // The class flag.
        form::FLAG => Encoding::FlagByte,
        form::FLAG_PRESENT => Encoding::Present,
        _ => return None,
    };
    Some(encoding)
}

/// Whether a code is a form of the table.
pub(crate) fn is_form(form: u64) -> bool
    ensures { result ≡ is_some (encoding_of form) }
{
    encoding_of(form).is_some()
}

//! The kinds of type records and the leaves of members by their numbers.
ghost use Rattle.std.specs.Prelude.{◌≡◌};
ghost use Rattle.cv_type_writer.specs.MemberBytes.{leaf_number};
ghost use Rattle.cv_type_writer.specs.TypeBytes.{type_number};

use cv_type_records::{Member, TypeKind};

const LF_MODIFIER: u16 = 0x1001;

const LF_POINTER: u16 = 0x1002;

const LF_PROCEDURE: u16 = 0x1008;

const LF_ARGLIST: u16 = 0x1201;

const LF_FIELDLIST: u16 = 0x1203;

const LF_ARRAY: u16 = 0x1503;

const LF_STRUCTURE: u16 = 0x1505;

const LF_UNION: u16 = 0x1506;

const LF_ENUM: u16 = 0x1507;

const LF_INDEX: u16 = 0x1404;

const LF_ENUMERATE: u16 = 0x1502;

const LF_MEMBER: u16 = 0x150d;

const LF_STMEMBER: u16 = 0x150e;

const LF_NESTTYPE: u16 = 0x1510;

/// The number of a type record's kind.
pub(crate) fn type_number(kind: &TypeKind) -> u16
    ensures { result ≡ type_number kind.now }
{
    match kind {
        TypeKind::Modifier { .. } => LF_MODIFIER,
        TypeKind::Pointer { .. } => LF_POINTER,
        TypeKind::Procedure { .. } => LF_PROCEDURE,
        TypeKind::ArgList { .. } => LF_ARGLIST,
        TypeKind::FieldList { .. } => LF_FIELDLIST,
        TypeKind::Array { .. } => LF_ARRAY,
        TypeKind::Structure { .. } => LF_STRUCTURE,
        TypeKind::Union { .. } => LF_UNION,
        TypeKind::Enum { .. } => LF_ENUM,
        TypeKind::Other(number) => *number,
    }
}

/// The number of a member's leaf.
pub(crate) fn leaf_number(member: &Member) -> u16
    ensures { result ≡ leaf_number member.now }
{
    match member {
        Member::Index { .. } => LF_INDEX,
        Member::Enumerate { .. } => LF_ENUMERATE,
        Member::Field { .. } => LF_MEMBER,
        Member::Static { .. } => LF_STMEMBER,
        Member::Nest { .. } => LF_NESTTYPE,
    }
}

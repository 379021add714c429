//! The kinds of type records and the leaves of members by their numbers.
ghost use Rattle.std.specs.Prelude.{◌≡◌};
ghost use Rattle.cv_type_records.specs.Leaves.{leaf_of, member_leaf_of};

pub(crate) const LF_MODIFIER: u16 = 0x1001;

pub(crate) const LF_POINTER: u16 = 0x1002;

pub(crate) const LF_PROCEDURE: u16 = 0x1008;

pub(crate) const LF_ARGLIST: u16 = 0x1201;

pub(crate) const LF_FIELDLIST: u16 = 0x1203;

pub(crate) const LF_ARRAY: u16 = 0x1503;

pub(crate) const LF_STRUCTURE: u16 = 0x1505;

pub(crate) const LF_UNION: u16 = 0x1506;

pub(crate) const LF_ENUM: u16 = 0x1507;

pub(crate) const LF_INDEX: u16 = 0x1404;

pub(crate) const LF_ENUMERATE: u16 = 0x1502;

pub(crate) const LF_MEMBER: u16 = 0x150d;

pub(crate) const LF_STMEMBER: u16 = 0x150e;

pub(crate) const LF_NESTTYPE: u16 = 0x1510;

/// The kinds of type records whose contents are read.
#[derive(Clone, Copy, Debug, PartialEq, Eq)]
pub(crate) enum TypeLeaf {
    Modifier,
    Pointer,
    Procedure,
    ArgList,
    FieldList,
    Array,
    Structure,
    Union,
    Enum,
}

/// The leaves of members.
#[derive(Clone, Copy, Debug, PartialEq, Eq)]
pub(crate) enum MemberLeaf {
    Index,
    Enumerate,
    Field,
    Static,
    Nest,
}

/// The kind of a type record by its number; None for a record that is passed over.
#[tactic(auto, unfolding(crate::specs::Leaves::leaf_of))]
pub(crate) fn leaf_of(kind: u16) -> Option<TypeLeaf>
    ensures { result ≡ leaf_of kind }
{
    match kind {
        LF_MODIFIER => Some(TypeLeaf::Modifier),
        LF_POINTER => Some(TypeLeaf::Pointer),
        LF_PROCEDURE => Some(TypeLeaf::Procedure),
        LF_ARGLIST => Some(TypeLeaf::ArgList),
        LF_FIELDLIST => Some(TypeLeaf::FieldList),
        LF_ARRAY => Some(TypeLeaf::Array),
        LF_STRUCTURE => Some(TypeLeaf::Structure),
        LF_UNION => Some(TypeLeaf::Union),
        LF_ENUM => Some(TypeLeaf::Enum),
        _ => None,
    }
}

/// The leaf of a member by its number; None for one that is unknown.
#[tactic(auto, unfolding(crate::specs::Leaves::member_leaf_of))]
pub(crate) fn member_leaf_of(leaf: u16) -> Option<MemberLeaf>
    ensures { result ≡ member_leaf_of leaf }
{
    match leaf {
        LF_INDEX => Some(MemberLeaf::Index),
        LF_ENUMERATE => Some(MemberLeaf::Enumerate),
        LF_MEMBER => Some(MemberLeaf::Field),
        LF_STMEMBER => Some(MemberLeaf::Static),
        LF_NESTTYPE => Some(MemberLeaf::Nest),
        _ => None,
    }
}

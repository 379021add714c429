//! Type records, and the members of field lists.
use rv_io::{List, Text};

/// A record of `.debug$T`. The first record has the index 0x1000, the next 0x1001, and so on.
#[derive(Debug, Drop)]
pub struct TypeRec {
    /// Where the record begins, in bytes from the section's start.
    pub offset: u32,
    pub kind: TypeKind,
}

/// What a type record says. A type is given by its index, a name is UTF-8 without its zero byte, and a
/// size is in bytes.
#[derive(Debug, Drop)]
pub enum TypeKind {
    /// LF_MODIFIER.
    Modifier {
        ty: u32,
        modifiers: u16,
    },
    /// LF_POINTER.
    Pointer {
        ty: u32,
        attributes: u32,
    },
    /// LF_PROCEDURE. `args` is the index of an LF_ARGLIST.
    Procedure {
        result: u32,
        call: u8,
        options: u8,
        count: u16,
        args: u32,
    },
    /// LF_ARGLIST; its count is the list's length.
    ArgList {
        types: List<u32>,
    },
    /// LF_FIELDLIST, without its pads.
    FieldList {
        members: List<Member>,
    },
    /// LF_ARRAY. `index` is the type of an index, and `size` that of the whole array.
    Array {
        elem: u32,
        index: u32,
        size: i128,
        name: Text,
    },
    /// LF_STRUCTURE. `fields` is the index of an LF_FIELDLIST, or 0; a unique name is there where
    /// `property` has 0x200.
    Structure {
        count: u16,
        property: u16,
        fields: u32,
        derived: u32,
        vshape: u32,
        size: i128,
        name: Text,
        unique: Option<Text>,
    },
    /// LF_UNION.
    Union {
        count: u16,
        property: u16,
        fields: u32,
        size: i128,
        name: Text,
        unique: Option<Text>,
    },
    /// LF_ENUM. `ty` is the type of its numbers.
    Enum {
        count: u16,
        property: u16,
        ty: u32,
        fields: u32,
        name: Text,
        unique: Option<Text>,
    },
    /// A record of another kind, by the kind's number; its contents aren't looked at.
    Other(u16),
}

/// A member of a field list.
#[derive(Debug, Drop)]
pub enum Member {
    /// LF_INDEX: the field list goes on in another record. `zero` is the number as it stands.
    Index {
        zero: u16,
        fields: u32,
    },
    /// LF_ENUMERATE.
    Enumerate {
        attributes: u16,
        number: i128,
        name: Text,
    },
    /// LF_MEMBER. `offset` is in bytes from the start of the type.
    Field {
        attributes: u16,
        ty: u32,
        offset: i128,
        name: Text,
    },
    /// LF_STMEMBER.
    Static {
        attributes: u16,
        ty: u32,
        name: Text,
    },
    /// LF_NESTTYPE. `zero` is the number as it stands.
    Nest {
        zero: u16,
        ty: u32,
        name: Text,
    },
}

//! Records that have a name: LF_STRUCTURE, LF_UNION and LF_ENUM.
ghost use Rattle.std.specs.Prelude.{◌≡◌, option_and_then, option_map};
ghost use Rattle.cv_type_defs.specs.Records.{head_of, is_forward, kind_at};
ghost use Rattle.cv_links.specs.Seen.{head_seen};

use crate::records::kind_at;
use cv_type_defs::is_forward;
use cv_type_records::{TypeKind, TypeRec};
use rv_io::Text;

/// The leaves of records that may be forward references.
#[derive(Clone, Copy, Debug)]
pub enum Leaf {
    Structure,
    Union,
    Enum,
}

/// What such a record has.
#[derive(Clone, Copy)]
pub struct Head<'a> {
    pub leaf: Leaf,
    pub property: u16,
    /// The index of its field list; 0 where it has none.
    pub fields: u32,
    pub name: &'a Text,
    pub unique: Option<&'a Text>,
}

/// The head of a record that may have a name. Takes no memory.
fn head_of(kind: &TypeKind) -> Option<Head<'_>>
    ensures { option_map head_seen result ≡ head_of kind.now }
{
    match kind {
        TypeKind::Structure {
            property,
            fields,
            name,
            unique,
            ..
        } => Some(Head {
            leaf: Leaf::Structure,
            property: *property,
            fields: *fields,
            name,
            unique: unique.as_ref(),
        }),
        TypeKind::Union {
            property,
            fields,
            name,
            unique,
            ..
        } => Some(Head {
            leaf: Leaf::Union,
            property: *property,
            fields: *fields,
            name,
            unique: unique.as_ref(),
        }),
        TypeKind::Enum {
            property,
            fields,
            name,
            unique,
            ..
        } => Some(Head {
            leaf: Leaf::Enum,
            property: *property,
            fields: *fields,
            name,
            unique: unique.as_ref(),
        }),
        _ => None,
    }
}

/// The head of the record at a place; None where it has none.
pub fn head_at(records: &[TypeRec], place: usize) -> Option<Head<'_>>
    ensures { option_map head_seen result ≡ option_and_then head_of (kind_at records.now place) }
{
    let kind = kind_at(records, place)?;
    head_of(kind)
}

impl<'a> Head<'a> {
    /// Whether the record stands for a complete one. Takes no memory.
    pub fn is_forward(&self) -> bool
        ensures { result ≡ is_forward (head_seen self.now) }
    {
        is_forward(self.property)
    }
}

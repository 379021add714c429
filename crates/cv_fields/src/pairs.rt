//! The two fields of a fat pointer.
ghost use Rattle.std.specs.Prelude.{◌≡◌, option_map, ℕ};
ghost use Rattle.cv_type_defs.specs.FatPointers.{is_fat_pair, is_thin, pointee};
ghost use Rattle.cv_type_defs.specs.Fields.{field_target};
ghost use Rattle.cv_fields.specs.Pairs.{is_at, is_placed, is_simple};
ghost use Rattle.cv_links.specs.Seen.{target_seen};

use crate::field::Field;
use cv_links::{Links, Target};
use layout_set::FatContent;

/// The simple type of bytes.
const BYTE: u32 = 0x20;

/// Whether a field lies there and has this name.
fn is_placed(name: &[u8], offset: u8, field: &Field<'_>) -> bool
    ensures { result ≡ is_placed name.now offset field.now }
{
    field.is_named(name) && is_at(offset, field.offset())
}

/// Whether the numbers are the same.
fn is_at(offset: u8, number: i128) -> bool
    ensures { result ≡ is_at offset number }
{
    number == i128::from(offset)
}

/// Whether this is the type of bytes.
fn is_byte(to: Option<Target>) -> bool
    ensures { result ≡ is_simple 0x20 (option_map target_seen to) }
{
    match to {
        Some(Target::Simple(index)) => index == BYTE,
        _ => false,
    }
}

/// Where the thin pointer leads that a field is.
fn pointee_of(links: &Links<'_>, field: &Field<'_>) -> Option<Target>
    ensures { option_map target_seen result ≡ pointee links.now (field_target links.now field.now) }
{
    links.pointee(field.target(links))
}

/// Whether a field is a thin pointer.
fn is_thin(links: &Links<'_>, field: &Field<'_>) -> bool
    ensures { result ≡ is_thin links.now field.now }
{
    pointee_of(links, field).is_some()
}

/// Whether these are the two fields of a fat pointer to this. Takes no memory.
pub fn is_fat_pair(
    links: &Links<'_>,
    content: FatContent,
    first: &Field<'_>,
    second: &Field<'_>,
) -> bool
    ensures { result ≡ is_fat_pair links.now content first.now second.now }
{
    match content {
        FatContent::OfSlice => {
            is_placed(b"data_ptr", 0, first)
                && (is_placed(b"length", 8, second) && is_thin(links, first))
        }
        FatContent::OfStr => {
            is_placed(b"data_ptr", 0, first)
                && (is_placed(b"length", 8, second) && is_byte(pointee_of(links, first)))
        }
        FatContent::OfDyn => {
            is_placed(b"pointer", 0, first)
                && (is_placed(b"vtable", 8, second)
                    && (is_thin(links, first) && is_thin(links, second)))
        }
    }
}

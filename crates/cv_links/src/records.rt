//! Records by their places.
ghost use Rattle.std.specs.Prelude.{◌≡◌, option_copied, slice_get};
ghost use Rattle.cv_type_defs.specs.Records.{kind_at};

use cv_type_records::{TypeKind, TypeRec};

/// The record at a place; None where there is none.
fn record_at(records: &[TypeRec], place: usize) -> Option<&TypeRec>
    ensures { option_copied result ≡ slice_get records.now place }
{
    records.get(place)
}

/// What the record at a place says; None where there is none.
pub fn kind_at(records: &[TypeRec], place: usize) -> Option<&TypeKind>
    ensures { option_copied result ≡ kind_at records.now place }
{
    let record = record_at(records, place)?;
    Some(&record.kind)
}

//! Type records are read.
ghost use Rattle.std.specs.Prelude.{◌≡◌, ◌≤◌, ◌^◌, length, drop, IfOk, IfErr, OnOk};
ghost use Rattle.rv_bytes.specs.Reads.{IsRefusedBy};
ghost use Rattle.rv_bytes.specs.Results.{Reads};
ghost use Rattle.cv_parts.specs.RecordReaders.{read_kind_then, read_signature, read_all};
ghost use Rattle.cv_parts.specs.Results.{IsPlaceOf};
ghost use Rattle.cv_type_records.specs.Types.{types, AreTypes};
ghost use Rattle.cv_type_records.specs.TypeReaders.{read_contents, read_type_record};

use crate::fields::read_by_kind;
use crate::kinds::{TypeKind, TypeRec};
use crate::leaves::leaf_of;
use cv_parts::{read_content, read_signature};
use rv_bytes::{Cut, DwErr};
use rv_io::List;
use std::alloc::Global;

/// What a record says, from its kind on.
#[tactic(auto, using(cv_parts::proofs::Contents::number_left))]
fn read_kind(alloc: Global, cut: &mut Cut<'_>) -> Result<TypeKind, DwErr>
    ensures { Reads (read_kind_then read_contents (length cut.old.rest) cut.old.at cut.old.rest) result cut.new }
{
    let kind = cut.u16()?;
    match leaf_of(kind) {
        Some(leaf) => read_by_kind(alloc, cut, leaf),
        None => Ok(TypeKind::Other(kind)),
    }
}

/// The record at the cut's place, and the cut past it.
fn read_type<'a>(alloc: Global, section: &'a [u8], cut: &mut Cut<'a>) -> Result<TypeRec, DwErr>
    requires fits { length section.now ≤ 2 ^ 32 }
    requires more { 1 ≤ length cut.old.rest }
    requires place { IsPlaceOf section.now cut.old }
    ensures reads { Reads (read_type_record cut.old.at cut.old.rest) result cut.new }
    ensures place { OnOk result (IsPlaceOf section.now cut.new) }
{
    let at = cut.at();
    let mut content = read_content(section, at)?;
    let end = content.at() + content.left();
    let kind = read_kind(alloc, &mut content)?;
    *cut = Cut::from_place(section, end);
    Ok(TypeRec {
        offset: at as u32,
        kind,
    })
}

/// The records from the cut's place to the section's end.
fn read_records<'a>(
    alloc: Global,
    section: &'a [u8],
    cut: &mut Cut<'a>,
) -> Result<List<TypeRec>, DwErr>
    requires fits { length section.now ≤ 2 ^ 32 }
    requires place { IsPlaceOf section.now cut.old }
    ensures { Reads (read_all (λ _. read_type_record) cut.old.at cut.old.rest) result cut.new }
{
    let mut records = List::new(alloc);
    while cut.left() > 0 {
        let record = read_type(alloc, section, cut)?;
        records.push(record)?;
    }
    Ok(records)
}

/// Reads the type records of `section`, which is the whole of `.debug$T`, in their order. Links, names
/// and counts aren't looked at further.
///
/// The `offset` of a refusal is in bytes from the section's start, where the first invalid item begins.
/// Its rules: 10 where the section ends inside its first number, or inside a record (at the record), or
/// a record ends inside a field (at the field); 12 where no zero byte ends a name; 13 where the kind of a
/// numeric leaf is unknown; 14 where a name isn't UTF-8 or has more than 65,535 bytes; 50 where the
/// section doesn't begin with the number 4; 51 where a record's length is below 2; 52 where the leaf of a
/// member is unknown. Takes memory for the records.
pub fn read_types(alloc: Global, section: &[u8]) -> Result<List<TypeRec>, DwErr>
    // The offsets of records fit 32 bits.
    requires { length section.now ≤ 2 ^ 32 }

    // The section's bytes are the signature and these records.
    ensures records { IfOk result (AreTypes section.now) }

    // What is refused are no records, by the first invalid item.
    ensures refused { IfErr result (IsRefusedBy (types (length section.now)) (record { at = 0; rest = section.now })) }
{
    let mut cut = Cut::new(section);
    read_signature(&mut cut)?;
    read_records(alloc, section, &mut cut)
}

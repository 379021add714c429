//! Where the indices of records lead, each found from those before it.
ghost use Rattle.std.specs.Prelude.{◌≡◌, length, IfOk, List, slice_get};
ghost use Rattle.cv_type_defs.specs.Links.{meant, modified, target};
ghost use Rattle.cv_type_defs.specs.Records.{kind_at};
ghost use Rattle.cv_type_records.specs.declared.kinds.TypeRec.{TypeRec};
ghost use Rattle.cv_links.specs.Ends.{AreAllEnds, AreEnds, end_at};
ghost use Rattle.cv_links.specs.Named.{AreCompletes};
ghost use Rattle.cv_links.specs.Seen.{target_seen};

use crate::completes::Completes;
use crate::heads::head_at;
use crate::records::kind_at;
use crate::target::Target;
use cv_type_records::{TypeKind, TypeRec};
use rv_io::Memory;
use std::alloc::Global;

/// The index of the first record; those below it are simple types.
pub const FIRST_INDEX: u32 = 0x1000;

/// The rule of an index that isn't below that of its record.
pub const BAD_INDEX: u8 = 54;

/// The rule of a forward reference that has no complete record.
const NO_COMPLETE: u8 = 56;

/// The type for which an LF_MODIFIER at a place stands.
fn modified_at(records: &[TypeRec], place: usize) -> Option<u32>
    ensures { result ≡ modified (kind_at records.now place) }
{
    match kind_at(records, place) {
        Some(TypeKind::Modifier { ty, .. }) => Some(*ty),
        _ => None,
    }
}

/// The record for which the one at a place stands, which is no LF_MODIFIER.
pub fn meant<'a>(completes: &Completes<'a>, records: &'a [TypeRec], place: usize) -> Target
    requires { AreCompletes records.now completes.now }
    ensures { target_seen result ≡ meant records.now place }
{
    let Some(head) = head_at(records, place) else {
        return Target::Record(place);
    };
    if !head.is_forward() {
        return Target::Record(place);
    }
    match completes.place(&head) {
        Some(complete) => Target::Record(complete),
        None => Target::Broken(NO_COMPLETE),
    }
}

/// One of some targets, if it is there.
pub fn end_in(ends: &[Target], place: usize) -> Option<Target>
    ensures { result ≡ slice_get ends.now place }
{
    ends.get(place).copied()
}

/// Where an index leads that must be below that of the next record.
fn led(ends: &[Target], index: u32) -> Target
    ensures { (records : List TypeRec) → AreEnds records ends.now → target_seen result ≡ target records (length ends.now) index }
{
    if index < FIRST_INDEX {
        return Target::Simple(index);
    }
    match end_in(ends, (index - FIRST_INDEX) as usize) {
        Some(end) => end,
        None => Target::Broken(BAD_INDEX),
    }
}

/// Where the index of the next record leads.
fn next_end<'a>(completes: &Completes<'a>, records: &'a [TypeRec], ends: &[Target]) -> Target
    requires completes { AreCompletes records.now completes.now }
    requires ends { AreEnds records.now ends.now }
    ensures { target_seen result ≡ end_at records.now (length ends.now) }
{
    let place = ends.len();
    match modified_at(records, place) {
        Some(ty) => led(ends, ty),
        None => meant(completes, records, place),
    }
}

/// Where the index of each record leads.
pub fn read_ends<'a>(
    alloc: Global,
    completes: &Completes<'a>,
    records: &'a [TypeRec],
) -> Result<Vec<Target>, Memory>
    requires { AreCompletes records.now completes.now }
    ensures { IfOk result (λ ends. AreAllEnds records.now ends.items) }
{
    let mut ends = Vec::new(alloc);
    while ends.len() < records.len() {
        let end = next_end(completes, records, ends.as_slice());
        ends.push(end)?;
    }
    Ok(ends)
}

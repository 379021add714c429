//! The records, and where each index leads.
ghost use Rattle.std.specs.Prelude.{◌≡◌, length, IfOk, option_and_then, option_copied, option_map};
ghost use Rattle.cv_type_defs.specs.Links.{meant, target};
ghost use Rattle.cv_type_defs.specs.Numbering.{numbered_before};
ghost use Rattle.cv_type_defs.specs.Records.{complete_place, head_of, kind_at};
ghost use Rattle.cv_links.specs.Ends.{end_at};
ghost use Rattle.cv_links.specs.Seen.{head_seen, target_seen};

use crate::completes::{Completes, read_completes};
use crate::ends::{BAD_INDEX, FIRST_INDEX, end_in, meant, read_ends};
use crate::heads::{Head, head_at};
use crate::numbers::{number_in, read_numbers};
use crate::records::kind_at;
use crate::target::Target;
use cv_type_records::{TypeKind, TypeRec};
use rv_io::Memory;
use std::alloc::Global;
use std::marker::Model;

/// The records of `.debug$T`, with a table of where each index leads. Contracts see their list.
#[derive(Drop)]
pub struct Links<'a> {
    records: &'a [TypeRec],
    completes: Completes<'a>,
    /// Where the index of each record leads.
    ends: Vec<Target>,
    /// How many numbered records are before each place, up to the end.
    numbers: Vec<usize>,
}

impl<'a> Model for Links<'a> {
    ghost use Rattle.std.specs.Prelude.{List};
    ghost use Rattle.cv_type_records.specs.declared.kinds.TypeRec.{TypeRec};
    ghost use Rattle.cv_links.specs.Ends.{IsView};

    ghost Value = { List TypeRec };

    ghost view = { λ l. l.records.now };

    ghost invariant = { λ l. IsView l.records.now l.completes l.ends.items l.numbers.items };
}

/// Finds where each index leads. Takes memory for one target and one number a
/// record, and for the places of names.
pub fn read_links<'a>(alloc: Global, records: &'a [TypeRec]) -> Result<Links<'a>, Memory>
    ensures { IfOk result (λ l. l ≡ records.now) }
{
    let completes = read_completes(alloc, records)?;
    let ends = read_ends(alloc, &completes, records)?;
    let numbers = read_numbers(alloc, records)?;
    Ok(Links {
        records,
        completes,
        ends,
        numbers,
    })
}

impl<'a> Links<'a> {
    /// The records.
    pub(crate) fn records(&self) -> &'a [TypeRec]
        ensures { result.now ≡ self.now }
    {
        self.records
    }

    /// How many records there are. Takes no memory.
    pub fn len(&self) -> usize
        ensures { result ≡ length self.now }
    {
        self.records.len()
    }

    /// What the record at a place says; None where there is none. Takes no memory.
    pub fn kind(&self, place: usize) -> Option<&'a TypeKind>
        ensures { option_copied result ≡ kind_at self.now place }
    {
        kind_at(self.records, place)
    }

    /// The leaf, the properties and the names of the record at a place; None where it has none. Takes no
    /// memory.
    pub fn head(&self, place: usize) -> Option<Head<'a>>
        ensures { option_map head_seen result ≡ option_and_then head_of (kind_at self.now place) }
    {
        head_at(self.records, place)
    }

    /// The place of the first complete record for which a forward reference stands: it has the same leaf
    /// and the same unique name, or the same name where the reference has no unique name. Takes no memory.
    pub fn complete_place(&self, forward: &Head<'a>) -> Option<usize>
        ensures { result ≡ complete_place self.now (head_seen forward.now) }
    {
        self.completes.place(forward)
    }

    /// Where the index of the record at a place leads, from any record after it.
    fn end(&self, place: usize) -> Target
        ensures { target_seen result ≡ end_at self.now place }
    {
        match end_in(self.ends.as_slice(), place) {
            Some(end) => end,
            None => Target::Record(place),
        }
    }

    /// Where an index leads that must be below that of the record at this place. Takes the same time for
    /// each index, and no memory.
    pub fn target(&self, place: usize, index: u32) -> Target
        ensures { target_seen result ≡ target self.now place index }
    {
        if index < FIRST_INDEX {
            return Target::Simple(index);
        }
        let at = (index - FIRST_INDEX) as usize;
        if at < place {
            self.end(at)
        } else {
            Target::Broken(BAD_INDEX)
        }
    }

    /// The record for which the one at a place stands, which is no LF_MODIFIER: a forward reference stands
    /// for its complete record, and every other one for itself. Takes no memory.
    pub fn meant(&self, place: usize) -> Target
        ensures { target_seen result ≡ meant self.now place }
    {
        meant(&self.completes, self.records, place)
    }

    /// How many types of the set have their records before this place. Takes no memory.
    pub fn numbered_before(&self, place: usize) -> usize
        ensures { result ≡ numbered_before self.now place }
    {
        match number_in(self.numbers.as_slice(), place) {
            Some(number) => number,
            None => self.numbered(),
        }
    }

    /// How many records are types of the set. Takes no memory.
    pub fn numbered(&self) -> usize
        ensures { result ≡ numbered_before self.now (length self.now) }
    {
        number_in(self.numbers.as_slice(), self.records.len()).unwrap_or(0)
    }
}

//! Complete records, by their names.
ghost use Rattle.std.specs.Prelude.{◌≡◌, ◌+◌, ◌<◌, length, take, [], IfOk, List, OnOk, Some, option_copied};
ghost use Rattle.cv_type_defs.specs.Records.{Leaf as SeenLeaf, complete_place};
ghost use Rattle.cv_type_records.specs.declared.kinds.TypeRec.{TypeRec};
ghost use Rattle.cv_links.specs.Named.{AreCompletes, AreNames, PutsFirst, PutsNames};
ghost use Rattle.cv_links.specs.Seen.{head_seen, leaf_seen};

use crate::heads::{Head, Leaf, head_at};
use cv_type_records::TypeRec;
use rv_io::{Memory, Text};
use std::alloc::Global;
use std::collections::BTreeMap;

/// Complete records of one leaf: the place of the first of each name, and of each unique name.
#[derive(Drop)]
pub struct Names<'a> {
    by_name: BTreeMap<&'a [u8], usize>,
    by_unique: BTreeMap<&'a [u8], usize>,
}

/// Complete records, by their leaves and names.
#[derive(Drop)]
pub struct Completes<'a> {
    structures: Names<'a>,
    unions: Names<'a>,
    enums: Names<'a>,
}

/// Gives a text a place, unless it has one.
fn put<'a>(
    places: &mut BTreeMap<&'a [u8], usize>,
    text: &'a [u8],
    place: usize,
) -> Result<(), Memory>
    ensures { OnOk result (PutsFirst places.old places.new (Some text.now) place) }
{
    if !places.contains_key(&text) {
        places.insert(text, place)?;
    }
    Ok(())
}

/// Gives a unique name a place, unless it has one.
#[tactic(auto, using(crate::proofs::Firsts::put_none))]
fn put_unique<'a>(
    places: &mut BTreeMap<&'a [u8], usize>,
    unique: Option<&'a Text>,
    place: usize,
) -> Result<(), Memory>
    ensures { OnOk result (PutsFirst places.old places.new (option_copied unique.entry) place) }
{
    match unique {
        Some(text) => put(places, text.as_bytes(), place),
        None => Ok(()),
    }
}

impl<'a> Names<'a> {
    /// No names.
    fn new(alloc: Global) -> Names<'a>
        ensures { (leaf : SeenLeaf) → AreNames [] leaf result }
    {
        Names {
            by_name: BTreeMap::new(alloc),
            by_unique: BTreeMap::new(alloc),
        }
    }

    /// Gives the names of a complete record a place, unless they have one.
    fn add(&mut self, head: &Head<'a>, place: usize) -> Result<(), Memory>
        ensures { OnOk result (PutsNames self.old self.new (head_seen head.now) place) }
    {
        put(&mut self.by_name, head.name.as_bytes(), place)?;
        put_unique(&mut self.by_unique, head.unique, place)
    }

    /// The place of the first record that has the unique name of a forward reference, or its name where
    /// that has no unique name.
    fn place(&self, forward: &Head<'a>) -> Option<usize>
        ensures { (records : List TypeRec) → AreNames records (leaf_seen forward.now.leaf) self.now → result ≡ complete_place records (head_seen forward.now) }
    {
        match forward.unique {
            Some(unique) => {
                let text: &'a [u8] = unique.as_bytes();
                self.by_unique.get(&text).copied()
            }
            None => {
                let text: &'a [u8] = forward.name.as_bytes();
                self.by_name.get(&text).copied()
            }
        }
    }
}

impl<'a> Completes<'a> {
    /// Adds the record at a place, if it is complete.
    fn add_at(&mut self, records: &'a [TypeRec], place: usize) -> Result<(), Memory>
        requires { place < length records.now }
        ensures { OnOk result (AreCompletes (take place records.now) self.old → AreCompletes (take (place + 1) records.now) self.new) }
    {
        let Some(head) = head_at(records, place) else {
            return Ok(());
        };
        if head.is_forward() {
            return Ok(());
        }
        match head.leaf {
            Leaf::Structure => self.structures.add(&head, place),
            Leaf::Union => self.unions.add(&head, place),
            Leaf::Enum => self.enums.add(&head, place),
        }
    }

    /// The place of the first complete record for which a forward reference stands. Takes a time that
    /// grows with the logarithm of the count of records, and no memory.
    pub fn place(&self, forward: &Head<'a>) -> Option<usize>
        ensures { (records : List TypeRec) → AreCompletes records self.now → result ≡ complete_place records (head_seen forward.now) }
    {
        match forward.leaf {
            Leaf::Structure => self.structures.place(forward),
            Leaf::Union => self.unions.place(forward),
            Leaf::Enum => self.enums.place(forward),
        }
    }
}

/// Finds the complete records. Takes memory for their count.
pub fn read_completes<'a>(alloc: Global, records: &'a [TypeRec]) -> Result<Completes<'a>, Memory>
    ensures { IfOk result (λ completes. AreCompletes records.now completes) }
{
    let mut completes = Completes {
        structures: Names::new(alloc),
        unions: Names::new(alloc),
        enums: Names::new(alloc),
    };
    for place in 0..records.len() {
        completes.add_at(records, place)?;
    }
    Ok(completes)
}

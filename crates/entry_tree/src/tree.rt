//! A tree of entries, with all nodes in one vector.
ghost use Rattle.std.specs.Prelude.{◌≡◌, ◌≢◌, ◌<◌, ◌++◌, ◌∷◌, [], ◌==◌, length, position, IsTrue, IfOk, IfErr, OnOk, OnErr, ◌↔◌};
ghost use Rattle.std.specs.Option.{option_copied};
ghost use Rattle.entry_tree.specs.Entries.{MayPush, IsAboveLast, depth_of, new_entry};
ghost use Rattle.entry_tree.specs.Invariant.{AreEntries};
ghost use Rattle.entry_tree.specs.Links.{node_of, children_of};

use crate::children::Children;
use crate::fault::TreeErr;
use crate::node::Node;
use crate::search::{insertion_under, is_above_last, link, may_be_under, number_at};
use std::alloc::Global;
use std::marker::Model;

const DEEPEST: u32 = 256;

const MOST: usize = 8_000_000;

/// Entries of debug information, each of which owns its children (DWARF 5, 2.3). Contracts see the
/// list of entries in prefix order, each with the number of its parent; the numbers count from 0.
#[derive(Drop)]
pub struct Tree {
    nodes: Vec<Node>,
    /// The depth of the last node, where a root has depth 1; 0 in an empty tree.
    depth: u32,
}

impl Model for Tree {
    ghost use Rattle.std.specs.Prelude.{List, map};
    ghost use Rattle.entry_tree.specs.Entries.{Entry};

    ghost Value = { List Entry };

    ghost use Rattle.entry_tree.specs.Links.{entry_of};
    ghost use Rattle.entry_tree.specs.Invariant.{IsTree};

    ghost view = { λ t. map entry_of t.nodes.items };

    ghost invariant = { λ t. IsTree t.nodes.items t.depth };
}

impl Tree {
    /// The empty tree. Takes no memory.
    pub fn new(alloc: Global) -> Tree
        ensures { result ≡ [] }
    {
        Tree {
            nodes: Vec::new(alloc),
            depth: 0,
        }
    }

    /// Takes memory for so many entries more, so that as many calls that add an entry take none.
    pub fn reserve(&mut self, additional: usize) -> Result<(), TreeErr>
        // The entries stay, whatever the result.
        ensures same { self.new ≡ self.old }
        ensures memory { IfErr result (λ e. e ≡ TreeErr.Memory) }
    {
        self.nodes.reserve(additional)?;
        Ok(())
    }

    /// How many entries there are. Takes no memory.
    pub fn len(&self) -> usize
        ensures count { result ≡ length self.now }

        // They are in prefix order, their offsets rise, and none is deeper than 256.
        ensures entries { AreEntries self.now }
    {
        self.nodes.len()
    }

    /// Whether there is no entry. Takes no memory.
    pub fn is_empty(&self) -> bool
        ensures { result ≡ (length self.now == 0) }
    {
        self.nodes.is_empty()
    }

    /// Whether an entry with this offset may come below `under`: that is none, or on the way from
    /// the last entry to its root, and the offset is above that of the last entry.
    ///
    /// Goes up from the last entry, at most 256 steps. Takes no memory.
    pub fn may_push(&self, under: Option<u32>, offset: u64) -> bool
        ensures { IsTrue result ↔ (MayPush self.now under × IsAboveLast self.now offset) }
    {
        let nodes = self.nodes.as_slice();
        may_be_under(nodes, under) && is_above_last(nodes, offset)
    }

    /// Adds the last child of the entry `under`, or the last root, and gives its number. `offset`
    /// is in bytes from the start of `.debug_info`.
    ///
    /// Refuses an entry of depth 257, where a root has depth 1, and else one after 8,000,000
    /// others. May take memory. All calls that add an entry take together no more steps up than
    /// there are entries.
    pub fn push(
        &mut self,
        under: Option<u32>,
        offset: u64,
        unit: u32,
        code: u64,
        tag: u64,
    ) -> Result<u32, TreeErr>
        requires may_push { MayPush self.old under }
        requires above { IsAboveLast self.old offset }

        // The entry is the last one, and its number says so.
        ensures number { IfOk result (λ n. n ≡ length self.old) }
        ensures pushed { OnOk result (self.new ≡ self.old ++ new_entry under offset unit code tag ∷ []) }

        // At any other call memory may run out.
        ensures deep { (result ≡ Err TreeErr.Deep) ↔ (depth_of self.old under ≡ 256) }
        ensures full { (result ≡ Err TreeErr.Full) ↔ ((depth_of self.old under ≢ 256) × (length self.old ≡ 8000000)) }

        // A refusal changes nothing.
        ensures same { OnErr result (self.new ≡ self.old) }
    {
        let insertion = insertion_under(self.nodes.as_slice(), self.depth, under);
        if insertion.depth > DEEPEST {
            return Err(TreeErr::Deep);
        }
        if self.nodes.len() == MOST {
            return Err(TreeErr::Full);
        }
        let number = self.nodes.len() as u32;
        self.nodes.push(Node {
            offset,
            unit,
            code,
            tag,
            first: None,
            next: None,
            up: under,
        })?;
        link(&mut self.nodes, under, insertion.sibling, number);
        self.depth = insertion.depth;
        Ok(number)
    }

    /// The entry with this number. Takes no memory.
    pub fn entry(&self, number: u32) -> Option<&Node>
        ensures { option_copied result ≡ node_of self.now number }
    {
        self.nodes.get(number as usize)
    }

    /// The numbers of the children of the entry with this number, rising; none where there is no
    /// such entry. Takes no memory.
    pub fn children(&self, number: u32) -> Children<'_>
        ensures { result ≡ children_of self.now number }
    {
        Children::new(self.nodes.as_slice(), number)
    }

    /// The number of the entry that begins at this offset, in bytes from the start of
    /// `.debug_info`. Halves the entries until one is left. Takes no memory.
    pub fn at_offset(&self, offset: u64) -> Option<u32>
        ensures { result ≡ position (λ e. e.offset == offset) self.now }
    {
        number_at(self.nodes.as_slice(), offset)
    }
}

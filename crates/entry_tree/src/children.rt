//! The children of a node, one after another.
ghost use Rattle.std.specs.Prelude.{◌≡◌, map};
ghost use Rattle.entry_tree.specs.Invariant.{AreEntries};
ghost use Rattle.entry_tree.specs.Links.{entry_of, Linked, children_of};

use crate::node::Node;
use crate::search::first_child;
use std::marker::Model;

/// The numbers of the children of a node, which contracts see as the list of those that are left.
#[derive(Drop)]
pub struct Children<'a> {
    nodes: &'a [Node],
    at: Option<u32>,
}

impl<'a> Model for Children<'a> {
    ghost use Rattle.std.specs.Prelude.{List, ℕ, map};
    ghost use Rattle.std.specs.Coded.{coded_list, coded_ℕ};

    ghost Value = { List ℕ };

    ghost coded = { coded_list coded_ℕ };

    ghost use Rattle.entry_tree.specs.Links.{entry_of, siblings_from};
    ghost use Rattle.entry_tree.specs.Siblings.{AreSiblings};

    ghost view = { λ c. siblings_from (map entry_of c.nodes.now) c.at };

    ghost invariant = { λ c. AreSiblings c.nodes.now c.at };
}

impl<'a> Children<'a> {
    /// The children of the node with this number; none where there is no such node. Takes no
    /// memory.
    pub(crate) fn new(nodes: &'a [Node], number: u32) -> Children<'a>
        requires linked { Linked nodes.now }
        requires forest { AreEntries (map entry_of nodes.now) }
        ensures { result ≡ children_of (map entry_of nodes.now) number }
    {
        Children {
            nodes,
            at: first_child(nodes, number),
        }
    }
}

impl<'a> Iterator for Children<'a> {
    ghost use Rattle.std.specs.Iterator.{YieldsFirst, item_count};

    type Item = u32;

    ghost next_gives = { YieldsFirst (λ s. s) };

    ghost remaining = { item_count (λ s. s) };

    fn next(&mut self) -> Option<u32> {
        let number = self.at?;
        self.at = self.nodes[number as usize].next;
        Some(number)
    }
}

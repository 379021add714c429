//! Walks and searches among nodes.
ghost use Rattle.std.specs.Prelude.{◌≡◌, ◌+◌, ◌==◌, map, position};
ghost use Rattle.std.specs.Bool.{Decides};
ghost use Rattle.entry_tree.specs.Entries.{MayPush, IsAboveLast};
ghost use Rattle.entry_tree.specs.Invariant.{AreEntries, IsTree, IsInsertion};
ghost use Rattle.entry_tree.specs.Links.{entry_of, Linked, first_child, with_link};

use crate::node::Node;

/// Where a new node is linked.
#[derive(Clone, Copy, Debug)]
pub(crate) struct Insertion {
    /// The last child of its parent.
    pub(crate) sibling: Option<u32>,
    /// How many entries are on its way to its root, itself included.
    pub(crate) depth: u32,
}

/// Whether the next node may be a child of `under`, or a root.
pub(crate) fn may_be_under(nodes: &[Node], under: Option<u32>) -> bool
    requires linked { Linked nodes.now }
    requires entries { AreEntries (map entry_of nodes.now) }
    ensures { Decides result (MayPush (map entry_of nodes.now) under) }
{
    let Some(under) = under else {
        return true;
    };
    let mut at = (nodes.len() as u32).checked_sub(1);
    while let Some(number) = at {
        if number == under {
            return true;
        }
        at = nodes[number as usize].up;
    }
    false
}

/// Whether an offset is above that of the last node.
pub(crate) fn is_above_last(nodes: &[Node], offset: u64) -> bool
    ensures { Decides result (IsAboveLast (map entry_of nodes.now) offset) }
{
    match nodes.last() {
        Some(last) => last.offset < offset,
        None => true,
    }
}

/// Where a new child of `under`, or a new root, is linked. `depth` is that of the last node.
pub(crate) fn insertion_under(nodes: &[Node], depth: u32, under: Option<u32>) -> Insertion
    requires tree { IsTree nodes.now depth }
    requires may_push { MayPush (map entry_of nodes.now) under }
    ensures { IsInsertion (map entry_of nodes.now) under result }
{
    let mut at = (nodes.len() as u32).checked_sub(1);
    let mut sibling = None;
    let mut depth = depth;
    while at != under {
        let Some(number) = at else { break };
        sibling = at;
        at = nodes[number as usize].up;
        depth -= 1;
    }
    Insertion {
        sibling,
        depth: depth + 1,
    }
}

/// Links a number to the sibling before it, or else to its parent.
pub(crate) fn link(nodes: &mut Vec<Node>, under: Option<u32>, sibling: Option<u32>, number: u32)
    ensures { nodes.new.items ≡ with_link nodes.old.items under sibling number }
{
    if let Some(sibling) = sibling {
        if let Some(node) = nodes.get_mut(sibling as usize) {
            node.next = Some(number);
        }
    } else if let Some(under) = under {
        if let Some(node) = nodes.get_mut(under as usize) {
            node.first = Some(number);
        }
    }
}

/// The first child of the node with this number, if there is such a node.
pub(crate) fn first_child(nodes: &[Node], number: u32) -> Option<u32>
    requires linked { Linked nodes.now }
    requires entries { AreEntries (map entry_of nodes.now) }
    ensures { result ≡ first_child (map entry_of nodes.now) number }
{
    match nodes.get(number as usize) {
        Some(node) => node.first,
        None => None,
    }
}

/// The number of the node with this offset.
pub(crate) fn number_at(nodes: &[Node], offset: u64) -> Option<u32>
    requires { AreEntries (map entry_of nodes.now) }
    ensures { result ≡ position (λ e. e.offset == offset) (map entry_of nodes.now) }
{
    let number = nodes.partition_point(|node| node.offset < offset);
    let node = nodes.get(number)?;
    if node.offset == offset {
        Some(number as u32)
    } else {
        None
    }
}

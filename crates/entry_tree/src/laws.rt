//! Theorems on lists of entries, each the contract of a call that does nothing.
ghost use Rattle.entry_tree.specs.Entries.{depth_of};
ghost use Rattle.entry_tree.specs.Invariant.{IsByParent};
ghost use Rattle.entry_tree.specs.Forests.{StandForAForest, StandForOneForest, PushLastChildren};

/// Each entry is one deeper than its parent, and a root has depth 1.
pub fn a_child_is_one_deeper()
    ensures { IsByParent depth_of }
{}

/// The entries of a tree, which are in prefix order, stand for a forest, and the entries of each
/// forest are in that order.
pub fn entries_stand_for_a_forest()
    ensures { StandForAForest }
{}

/// No list of entries stands for two forests.
pub fn entries_stand_for_one_forest()
    ensures { StandForOneForest }
{}

/// An entry after those of a forest is the last child of its parent, or the last root, and all
/// others keep their places.
pub fn an_entry_more_is_a_last_child()
    ensures { PushLastChildren }
{}

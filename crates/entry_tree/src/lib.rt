//! A tree of entries of debug information, linked by number.
#![tactic(auto)]

mod children;
mod fault;
mod laws;
mod node;
mod search;
mod tree;

pub use children::Children;
pub use fault::TreeErr;
pub use laws::{
    a_child_is_one_deeper, an_entry_more_is_a_last_child, entries_stand_for_a_forest,
    entries_stand_for_one_forest,
};
pub use node::Node;
pub use tree::Tree;

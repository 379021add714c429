//! Where links to types lead, and which types entries are.
#![tactic(auto)]

mod base_types;
mod ends;
mod rules;
mod set_types;
mod type_links;

pub use ends::{End, type_end};
pub use rules::{lowest, rule_if};
pub use set_types::is_type_of_set;
pub use type_links::{TypeLinks, read_type_links};

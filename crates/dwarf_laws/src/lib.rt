//! Laws of the entries of `.debug_info` where no item of them breaks a rule.
#![tactic(auto)]

mod laws;

pub use laws::{entries_are_read_with_their_parents, items_that_break_no_rule};

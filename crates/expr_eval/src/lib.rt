//! What the operations of a location expression give in a snapshot.
#![tactic(auto)]

mod addresses;
mod arithmetic;
mod checks;
mod expression;
mod heights;
mod laws;
mod lookups;
mod machine;
mod operation;
mod stack;

pub use addresses::Addrs;
pub use expression::Ops;
pub use laws::{last_is_last, only_what_is_missing_has_no_result, operands_are_there};
pub use machine::eval;
pub use operation::{Op, Spot};

//! Sets that grow by one line of a layout file.
#![tactic(auto)]

mod addition;
mod counts;
mod func_addition;
mod type_addition;

pub use addition::added;
pub use counts::{parts_in, types_in, variables_in};

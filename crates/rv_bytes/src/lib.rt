//! Numbers in bytes, and the forms of binary input.
#![tactic(auto)]

mod cut;
mod err;
mod laws;
mod leb;
mod numbers;
mod numeric;
mod put;
mod put_leaves;
mod put_leb;
pub mod rule;
mod texts;

pub use cut::Cut;
pub use err::{CutErr, DwErr};
pub use laws::{numbers_have_one_reading, one_shortest_form};
pub use put::{put_u8, put_u16, put_u32, put_u64, put_u128};
pub use put_leaves::put_numeric;
pub use put_leb::{put_sleb, put_uleb};

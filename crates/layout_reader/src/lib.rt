//! Whole layout files, read line by line, and their errors.
#![tactic(auto)]

mod head;
mod layout_err;
mod reader;
mod refusal;

pub use layout_err::{Count, LayoutErr};
pub use reader::read;

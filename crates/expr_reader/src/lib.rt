//! Reads the operations of a place.
#![tactic(auto)]

mod laws;
mod next;
mod order;
mod reader;
mod say;

pub use expr_bytes::{Addrs, Frame, OpsErr, Simple};
pub use laws::{bytes_have_one_reading, what_was_put_is_read_back};
pub use reader::read_ops;

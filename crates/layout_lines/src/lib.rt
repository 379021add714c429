//! The lines of a layout file: what each spells, how it is read, and which lines may follow a set's.
#![tactic(auto)]

mod func_reader;
mod line;
mod line_reader;
mod open_entry;
mod order;

pub use line::{Line, kind_of};
pub use line_reader::line_of;
pub use open_entry::OpenEntry;
pub use order::may_follow;

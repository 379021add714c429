//! The text of names and of a set's lines.
#![tactic(auto)]

mod func_writer;
mod line_writer;
mod name_writer;
mod place_writer;
mod set_writer;

pub use name_writer::put_name;
pub use set_writer::put_set;

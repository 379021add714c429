//! Layout files: the text of a set of types, statics and functions, written and read.
#![tactic(auto)]

mod laws;
mod writer;

pub use laws::{
    a_file_has_at_most_one_fault, a_file_is_spelled_or_at_fault, a_file_spells_one_set,
    a_spelled_file_has_no_fault,
};
pub use layout_reader::{Count, LayoutErr, read};
pub use layout_writer::put_name;
pub use writer::write;

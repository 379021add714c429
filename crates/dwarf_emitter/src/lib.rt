//! Sections of DWARF that describe a set, which was read back from them.
#![tactic(auto)]

mod writer;

pub use writer::{WriteErr, write};

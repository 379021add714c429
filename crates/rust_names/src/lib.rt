//! Names of Rust types in the spelling of Rust, written and read.
#![tactic(auto)]

mod fitting;
mod read;
mod rust;
mod rust_reader;

pub use read::{one_rust_name, read_rust};
pub use rust::rust_spelling;

//! The simple pointers that are types of the set.
#![tactic(auto)]

mod marks;
mod pointers;
mod uses;
mod variables;

pub use pointers::used_pointers;

//! A view of the entries of `.debug_info`, by their numbers.
#![tactic(auto)]

mod attributes;
mod bases;
mod children;
mod die;
mod dies;
mod entry;
mod links;
mod texts;

pub use die::{Children, Die, Iter};
pub use dies::{Dies, read_dies};

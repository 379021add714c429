//! Laws 12 to 14: scopes, where variables are, and how large a set is.
#![tactic(auto)]

mod distances;
mod entries;
pub mod law_12;
pub mod law_13;
pub mod law_14;
mod operations;
mod parts;
mod pieces;
mod same_location;

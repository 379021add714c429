//! The rules that the attributes of entries break, and where.
#![tactic(auto)]

mod around;
mod entries;
mod firsts;
mod items;
mod locations;
mod name;
mod origins;
mod own;
mod parts;

pub use entries::check_attributes;

//! The part of a set that CodeView carries.
#![tactic(auto)]

mod carried;
mod carried_places;
mod carried_types;

pub use carried::cv_part;

//! Which value an image shows, and which part a variable has.
#![tactic(auto)]

mod outcome;

pub use outcome::Outcome;

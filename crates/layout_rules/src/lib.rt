//! Which rule of layout files a line breaks.
#![tactic(auto)]

mod fault;
mod lowest;
mod lowest_words;

pub use fault::Front;
pub use lowest::rule_of;

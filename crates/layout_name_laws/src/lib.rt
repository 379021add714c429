//! Law 10: the names of types, statics and functions.
#![tactic(auto)]

mod cv_lengths;
pub mod law_10;
mod name_lengths;
mod rust_lengths;
mod rust_texts;
mod spelled;

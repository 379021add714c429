//! Tables of cases of calls on entries of `.debug_info`: what each is as a type, where its link leads, and the rules that it breaks.
#![tactic(auto)]

mod enums;
mod lines;
mod rows;
mod shown;
mod types;

pub use rows::outcome;

//! The symbols in which types are looked up: those outside inline sites, and the numbers of constants by
//! their names.
#![tactic(auto)]

mod numbers;
mod sites;
mod symbols;

pub use symbols::{Symbols, read_symbols};

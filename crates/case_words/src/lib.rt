//! What tables of cases are written in: lines, words, files that are set, and how an answer differs from what is wanted.
#![tactic(auto)]

pub mod difference;
pub mod lines;
pub mod mistake;
pub mod named;
pub mod words;

//! Tables of cases of calls that read debug information in bytes: what comes of each row, and how it differs from what is wanted.
#![tactic(auto)]

mod bundles;
mod cv_calls;
mod dwarf_calls;
mod entries;
mod expr_calls;
mod lists;
mod rows;
mod shown;
mod symbol_records;
mod type_records;
mod units;
mod wanted;

pub use rows::{Kind, complaint};

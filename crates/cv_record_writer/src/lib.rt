//! CodeView symbol records are appended to buffers, and any record's length and content.
#![tactic(auto)]

mod leaves;
mod ranges;
mod records;
mod symbols;

pub use records::put_record;
pub use symbols::put_symbol;

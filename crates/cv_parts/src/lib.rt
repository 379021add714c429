//! What CodeView's type records and symbol records have in common.
#![tactic(auto)]

mod names;
mod records;
pub mod rule;

pub use names::{put_name, read_name};
pub use records::{read_content, read_signature, refused};

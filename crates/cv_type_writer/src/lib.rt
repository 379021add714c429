//! CodeView type records are appended to buffers.
#![tactic(auto)]

mod fields;
mod laws;
mod leaves;
mod members;
mod pads;
mod types;

pub use laws::written_types_are_read;
pub use types::put_type;

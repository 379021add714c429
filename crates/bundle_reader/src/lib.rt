//! The set that a bundle file describes.
#![tactic(auto)]

mod laws;
mod reader;

pub use laws::{a_bundle_has_a_reading, a_bundle_is_read_one_way};
pub use reader::read;

//! The sections of debug information in either format, and the bundle file that holds them.
#![tactic(auto)]

mod laws;
mod parts;
mod read;
mod refusal;
pub mod rule;
mod sections;
mod write;

pub use laws::a_file_is_read_one_way;
pub use read::read_bundle;
pub use sections::{Bundle, CvSections, DwarfSections};
pub use write::write_bundle;

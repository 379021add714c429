//! What sections of DWARF say of types and statics.
#![tactic(auto)]

mod entries;
mod items;
mod laws;
mod reader;
mod set;
mod soundness;

pub use entries::read_entries;
pub use items::check_items;
pub use laws::{sections_have_a_description, sections_have_one_description};
pub use reader::read;

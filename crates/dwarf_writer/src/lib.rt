//! Sections of DWARF that describe a set of types and statics (DWARF 5, 2 to 5 and 7.5).
#![tactic(auto)]

mod abbrevs;
mod entries;
mod enums;
mod info;
mod offsets;
mod primitives;
mod sections;
mod statics;
mod types;

pub use sections::write_sections;

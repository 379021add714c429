//! The units of `.debug_info`, with their entries and attributes.
#![tactic(auto)]

mod attributes;
mod entry;
mod fault;
mod header;
mod laws;
pub mod rule;
mod tables;
mod unit;
mod units;

pub use attributes::{Attributes, EntryAttribute};
pub use fault::UnitsErr;
pub use header::UnitHeader;
pub use laws::units_are_read_one_way;
pub use tables::Tables;
pub use units::{Units, read_units};

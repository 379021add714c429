//! The entries of location lists and of range lists, one by one (DWARF 5, 2.6.2 and 2.17.3).
#![tactic(auto)]

mod entry;
mod kind;
mod laws;
pub mod lle;
mod location;
mod lookup;
mod operands;
mod range;
mod refusal;
pub mod rle;
pub mod rule;

pub use entry::{Bounds, ListEntry};
pub use expr_eval::Addrs;
pub use kind::{Kind, has_expression, location_kind, range_kind};
pub use laws::entries_are_read_one_way;
pub use location::{Expression, LocationEntry, read_location_entry};
pub use lookup::look_up;
pub use operands::RawEntry;
pub use range::read_range_entry;

//! The types of the set that `.debug_info` says.
#![tactic(auto)]

mod cases;
mod enums;
mod fields;
mod params;
mod sizes;
mod structures;
mod type_defs;
mod variants;

pub use cases::{case_of, cases_of, enumeration_def};
pub use enums::enum_def;
pub use fields::{field_of, fields_of};
pub use params::{param_of, params_of};
pub use structures::{struct_def, structure_def};
pub use type_defs::{type_def, types};

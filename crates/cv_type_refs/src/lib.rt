//! The types to which links of CodeView's type records lead.
#![tactic(auto)]

mod below;
mod info;
mod primitives;
mod type_refs;
mod unit;

pub use info::TypeInfo;
pub use unit::is_unit;

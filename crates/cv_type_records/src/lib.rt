//! Type records of CodeView, as they are in `.debug$T`.
#![tactic(auto)]

mod fields;
mod kinds;
mod laws;
mod leaves;
mod members;
mod read;

pub use kinds::{Member, TypeKind, TypeRec};
pub use laws::type_records_have_one_reading;
pub use read::read_types;

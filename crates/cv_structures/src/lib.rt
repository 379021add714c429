//! The types that CodeView's structures, pointers, arrays and C-like enums are, and the rules that they
//! break.
#![tactic(auto)]

mod arrays;
mod enumerations;
mod enumerators;
mod fields;
mod pointers;
mod sizes;
mod structures;
mod words;

pub use arrays::{array_def, array_rule};
pub use enumerations::{enumeration_def, enumeration_rule};
pub use fields::{field_of, field_rule, fields_of, fields_rule};
pub use pointers::{pointer_def, pointer_rule};
pub use sizes::{Sizes, read_sizes};
pub use structures::{structure_def, structure_rule};
pub use words::{word_of, word_rule};

//! What pointers lead to, which structures are fat pointers, and the rules that pointers, typedefs, arrays
//! and enumerations break.
#![tactic(auto)]

mod arrays;
mod enumerations;
mod fat;
mod members;
mod pairs;
mod pointers;
mod typedefs;

pub use arrays::{array_rule, count_of};
pub use enumerations::{enumeration_primitive, enumeration_rule};
pub use fat::{fat_pair, fat_pointer};
pub use members::{bit_rule, members_of, needs};
pub use pointers::{ends_at_function, pointee_of, pointer_def, pointer_rule, thin_pointee};
pub use typedefs::{type_or_unit, typedef_rule};

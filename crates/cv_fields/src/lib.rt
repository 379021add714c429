//! The fields of CodeView's structures and unions, their names, and structures that are fat pointers.
#![tactic(auto)]

mod broken;
mod fat;
mod field;
mod fields;
mod offsets;
mod pairs;
pub mod rule;
mod texts;

pub use broken::{lower, lowest, rule_if};
pub use fat::{Fat, fat_pointer};
pub use field::Field;
pub use fields::{Fields, fields_of};
pub use offsets::{u32_of, u32_or_0};
pub use texts::{is_word, name_of_text};

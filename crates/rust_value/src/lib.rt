//! Values of Rust types, their text, and how many nodes they have.
#![tactic(auto)]

mod copying;
mod counting;
mod held;
mod naming;
mod pointers;
mod printing;
mod printing_in;
mod scalars;
mod value;

pub use copying::copy_out;
pub use counting::nodes;
pub use held::{PartIn, ValIn};
pub use naming::names_are_words;
pub use printing::text;
pub use printing_in::text_in;
pub use value::{Part, Val};

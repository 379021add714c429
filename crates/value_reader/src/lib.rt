//! Values of types, read from their images.
#![tactic(auto)]

mod checked;
mod context;
mod held;
mod laws;
mod located;
mod locating;
mod lookups;
mod numbers;
mod outcome_in;
mod parts;
mod pointers;
mod reading;
mod selecting;
mod sources;
mod walk;

pub use laws::{levels_suffice, nodes_of_the_value, one_value};
pub use located::Located;
pub use locating::locate;
pub use outcome_in::OutcomeIn;
pub use reading::{read_in, read_value};
pub use selecting::select;

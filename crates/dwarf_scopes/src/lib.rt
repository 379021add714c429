//! What is around an entry of `.debug_info`, and what follows from it: whether it is passed over, from where it takes its
//! name, and what its name is.
#![tactic(auto)]

mod origins;
mod passed_over;
mod roles;
mod statics;
mod structures;
pub mod tags;

pub use origins::{bearer_of, goes_on, is_too_far, is_unnamed};
pub use passed_over::{is_in_function, is_in_type, is_passed, is_read};
pub use roles::{Role, is_param, role_of};
pub use statics::is_static;
pub use structures::{
    has_part, is_beside_part, is_in_structure, is_inner_structure, is_of_variant, location_of,
};

//! The scopes of functions: their addresses, their frame bases, and what is around a variable.
#![tactic(auto)]

mod frames;
mod places;
mod scopes;
mod units;
mod zones;

pub use frames::frame_of;
pub use places::{locations_place, ranges_place};
pub use scopes::{frame_around, function_of, scope_of};
pub use units::{addresses_of, base_address};
pub use zones::zones_of;

//! Statics as `.debug_info` says them.
#![tactic(auto)]

mod statics;

pub use statics::{static_address, static_of};

//! Which sets are honest.
#![tactic(auto)]

mod honesty;

pub use honesty::is_honest;

//! Derived names of types, as texts.
#![tactic(auto)]

mod derived;
mod own;
mod step;

pub use derived::put_derived_name;

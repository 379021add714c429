//! Names of Rust types, in the spelling of Rust and in that of CodeView.
#![tactic(auto)]

pub use cv_names::{cv_spelling, one_cv_name, proper_names_have_cv_spellings, read_cv};
pub use names::{Name, NameErr, PtrKind, Seg, Word};
pub use rust_names::{one_rust_name, read_rust, rust_spelling};

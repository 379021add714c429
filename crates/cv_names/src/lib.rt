//! Names of Rust types in the spelling of CodeView, written and read.
#![tactic(auto)]

mod cv;
mod cv_form;
mod cv_reader;
mod read;

pub use cv::cv_spelling;
pub use read::{one_cv_name, proper_names_have_cv_spellings, read_cv};

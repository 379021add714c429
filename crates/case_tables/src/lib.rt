//! Tables of cases: what comes of each row, of a public call, and how it differs from what is wanted.
#![tactic(auto)]

mod copies;
mod dwarf;
mod numbers;
mod places;
mod rows;
mod sets;
mod spellings;
mod values;

pub use case_words::difference::tell_difference;
pub use case_words::lines::{
    bytes_of_hex, cut_line_end, number, pair, put_hex, put_line, put_numbered, put_repeating,
};
pub use case_words::mistake::Mistake;
pub use case_words::named::Named;
use case_words::{difference, lines, mistake, named, words};
pub use rows::{Kind, complaint};

//! What all readers of text share: lines, words and numbers, each in its one spelling.
#![tactic(auto)]

mod cuts;
mod decimal;
mod digits;
mod hexadecimal;
mod utf8;

pub use cuts::{cut_line, cut_word, one_word, three_words, two_words};
pub use decimal::read_decimal;
pub use hexadecimal::{is_hex_word, read_hex, read_wide_hex};
pub use utf8::is_text;

//! The words of a layout file's lines: what each word spells, and how it is read.
#![tactic(auto)]

mod chars;
mod cursor;
mod kinds;
mod numbers;
mod place_words;
mod places;
mod slot;

pub use chars::{name_of, put_raw};
pub use cursor::{Stop, Words};
pub use kinds::{
    LineKind, NumberedOp, PlaceKind, SelectorKind, TypeKind, line_kind_of, line_kind_word,
    pointer_of, pointer_word, primitive_of, primitive_word, selector_kind_of, selector_word,
    type_kind_of, type_kind_word,
};
pub use numbers::{address_of, number_of, u32_of, word_of};
pub use place_words::{
    entry_kind_of, numbered_of, piece_kind_of, place_word, plain_of, plain_word,
};
pub use places::{cut_at, digits_of, digits_text, frame_of, i32_of, i64_of, numbered_op, zone_of};
pub use slot::Slot;

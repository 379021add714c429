//! The names of the entries of `.debug_info`.
#![tactic(auto)]

mod joined;
mod name;
mod own;
mod scopes;
mod word;

pub use joined::joined_text;
pub use name::{is_too_long, name_of};
pub use own::own_text;
pub use word::{blank, own_word, word_of};

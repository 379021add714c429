//! Names of Rust types as trees, and readers of texts with which their spellings are read.
#![tactic(auto)]

mod copy;
mod error;
mod name;
mod parts;
mod pointers;
mod put;
mod read;
mod rest;
mod word;

pub use error::NameErr;
pub use name::{Name, PtrKind, Seg};
pub use parts::{has_some, is_plain_str, is_word, one, with_first, with_room};
pub use put::put_signed;
pub use read::bad_name;
pub use rest::{Rest, StepErr};
pub use word::Word;

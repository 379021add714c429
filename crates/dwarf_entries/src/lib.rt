//! What the entries of `.debug_info` say, and the rules that they break.
#![tactic(auto)]

pub mod at;
mod base_types;
mod class;
mod constant;
mod discriminant;
mod fat;
mod laws;
mod name;
mod pointer;
mod row;
pub mod rule;
mod sections;
mod static_address;
mod tag;
mod text;

pub use base_types::base_type;
pub use class::{Class, class_rule};
pub use constant::natural;
pub use discriminant::{case_number, default_first, default_last, leaves_none, listed_number};
pub use fat::{FatPair, Member, fat_pair};
pub use laws::names_are_those_of_their_texts;
pub use name::{name_of_text, proper_name, stands_alone, word_in};
pub use pointer::kind_of_name;
pub use row::class_of;
pub use sections::{Bases, Sections};
pub use static_address::{Address, AddressOp, address_op};
pub use tag::{Tag, tag_of};
pub use text::{TextErr, address_of, text_of};

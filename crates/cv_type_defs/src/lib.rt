//! The types that type records define, and the rules that they break.
#![tactic(auto)]

mod enum_names;
mod laws;
mod number;
mod pointer;
mod property;
mod read_types;
mod simple;

pub use enum_names::{
    enum_text, is_closed, is_enum_name, is_helper_name, is_unit_name, put_constant_name,
    put_helper_name, put_variants_name,
};
pub use laws::type_records_have_one_meaning;
pub use number::{modulo, of_halves};
pub use pointer::pointer_kind;
pub use property::is_forward;
pub use read_types::ReadTypes;
pub use simple::{pointed_at, primitive_at};

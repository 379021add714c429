//! Abbreviation tables, and the values of attributes.
#![tactic(auto)]

mod attr;
mod decl;
mod encoding;
pub mod form;
mod items;
mod laws;
mod put;
mod refusal;
pub mod rule;
mod table;

pub use attr::{Attr, Spec, read_attr};
pub use decl::Abbrev;
pub use laws::a_table_is_read_one_way;
pub use put::put_table;
pub use table::{Table, read_table};

//! Where the values of variables are: location expressions and location lists.
#![tactic(auto)]

mod laws;
mod leftover;
mod list;
mod location;
mod part;
mod pieces;
mod place;
pub mod rule;
mod said;
mod size;

pub use dwarf_list_entries::Addrs;
pub use expr_reader::{Frame, OpsErr};
pub use laws::{
    expressions_have_a_reading, expressions_have_one_reading, lists_are_read_one_way,
    lists_have_a_reading,
};
pub use layout_set::{Entry, Loc, Piece, Place};
pub use list::read_locations;
pub use location::read_loc;

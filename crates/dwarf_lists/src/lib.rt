//! Location lists and range lists, and the texts and lists that indexes lead to (DWARF 5, 2.6.2, 2.17.3 and 7.26 to 7.29).
#![tactic(auto)]

mod end;
mod laws;
mod locations;
mod offsets;
mod places;
mod put;
mod ranges;
mod refusal;
mod texts;

pub use dwarf_list_entries::{Addrs, Bounds, Expression};
pub use laws::{an_index_has_one_answer, an_index_has_one_list, lists_are_read_one_way};
pub use layout_set::Zone;
pub use locations::{BoundedLocation, read_location_list};
pub use places::indexed_list;
pub use put::put_ranges;
pub use ranges::read_ranges;
pub use texts::indexed_text;

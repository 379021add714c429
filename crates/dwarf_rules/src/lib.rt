//! The rules that the entries of `.debug_info` break by what they say.
#![tactic(auto)]

mod check;
mod counts;
mod items;
mod lengths;
mod lowest;
mod members;
mod parts;
mod shapes;
mod statics;
mod tags;

pub use check::check_entries;
pub use members::{member_rule, named_rule};
pub use parts::{has_params, is_part_of_enum, is_struct, parts_of};
pub use shapes::{Shape, Shapes, read_shapes};
pub use statics::static_rule;
pub use tags::tag_rule;

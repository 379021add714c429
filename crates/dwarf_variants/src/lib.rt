//! Enums as `.debug_info` says them: variant parts, their variants and what chooses one.
#![tactic(auto)]

mod kinds;
mod numbers;
mod parts;

pub use kinds::{Below, Kind, members_in, parts_in, variants_in};
pub use numbers::{Listed, default_span, leave_none, listed_in, number_in};
pub use parts::{
    has_default, has_two_defaults, is_first_part, is_listed, is_tag_member, is_tagless,
    lacks_discr, part_of, tag_member, variant_member,
};

//! Enums as `.debug_info` says them: the tag of a variant part, what chooses each variant, and the rules that parts,
//! variants and their members break.
#![tactic(auto)]

mod lengths;
mod part;
mod rules;
mod structures;
mod tags;

pub use part::Part;
pub use rules::{part_rule, structure_rule, variant_rule};
pub use structures::variant_structure;
pub use tags::{tag_above, tag_primitive};

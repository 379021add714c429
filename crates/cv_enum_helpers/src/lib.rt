//! The helpers of CodeView's enums, `enum2$<..>`.
#![tactic(auto)]

mod called;
mod helpers;
mod named;
mod statics;
mod variant_numbers;
mod variants;

pub use called::{is_helper_of, is_names_of};
pub use helpers::{
    fields_of_variant, helper_of, names_target, structure_of, value_of, variants_of,
};
pub use named::{Named, helper_at, named_at, names_at};
pub use statics::{StaticMember, only_static, static_times};
pub use variant_numbers::variant_number;
pub use variants::{VariantField, Variants, variant_fields};

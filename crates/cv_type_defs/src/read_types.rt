//! What reading type records gives.
use layout_set::{TypeDef, TypeRef};
use rv_io::List;

/// The types that type records define, and the types for which their indices stand.
#[derive(Drop)]
pub struct ReadTypes {
    /// The records that are types, in order, and then the pointers to simple types that are used.
    pub types: List<TypeDef>,
    /// The type of each index that stands for one, rising; simple types that are primitives aren't among
    /// them.
    pub refs: List<(u32, TypeRef)>,
}

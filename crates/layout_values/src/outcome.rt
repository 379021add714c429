//! What is told of a variable.
use rust_value::Val;

/// What is told of a variable. The first that holds: `Unavailable` where it has no place, and then, in this order, `TooLarge`,
/// `Unavailable` for its bytes, `Value`, `Invalid`.
#[derive(Debug, Drop)]
pub enum Outcome {
    /// It has this value.
    Value(Val),
    /// A byte that is needed is missing, or no place is known.
    Unavailable,
    /// All that is needed is there, and no value has this image.
    Invalid,
    /// More than 65,536 nodes are reached.
    TooLarge,
}

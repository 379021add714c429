//! What is told of a variable, in an arena.
use rust_value::ValIn;

/// What is told of a variable, whose value is in an arena: as `Outcome`.
#[derive(Clone, Copy)]
pub enum OutcomeIn<'b> {
    /// It has this value.
    Value(ValIn<'b>),
    /// A byte that is needed is missing.
    Unavailable,
    /// All that is needed is there, and no value has this image.
    Invalid,
    /// More than 65,536 nodes are reached.
    TooLarge,
}

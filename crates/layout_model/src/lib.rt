//! Sets of types, statics and functions, the laws that they keep, and which of them are honest.
#![tactic(auto)]

mod checks;

pub use checks::{check, check_sound};
pub use layout_carried::cv_part;
pub use layout_honest::is_honest;
pub use layout_set::{
    Case, CheckErr, Entry, Field, Func, Item, Loc, Param, Piece, Place, Prim, Primitive, ReadErr,
    Refusal, Scope, Section, Selector, Set, Static, Tag, Target, TypeDef, TypeRef, Var, Variant,
    Zone, prim_size, size_of,
};
pub use layout_values::Outcome;

//! Sets of types, statics and functions, the sizes of types, and what the laws of a set say.
#![tactic(auto)]

pub mod breach;
mod breach_laws;
mod func;
mod primitive;
mod refusal;
mod set;
mod shapes;
mod sizes;

pub use breach::{CheckErr, Item, earlier};
pub use breach_laws::a_set_has_at_most_one_first_breach;
pub use func::{Entry, Func, Loc, Piece, Place, Scope, Var, Zone};
pub use primitive::{Prim, Primitive, is_whole, prim_size};
pub use refusal::{ReadErr, Refusal, Section};
pub use set::{Case, Field, Param, Selector, Set, Static, Tag, Target, TypeDef, TypeRef, Variant};
pub use shapes::{FatContent, fat_of, is_fat, is_path, is_raw, is_struct_name};
pub use sizes::{def_size, size_in, size_of, small_size};

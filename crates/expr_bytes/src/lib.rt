//! Expressions in bytes: operations read one by one, and written.
#![tactic(auto)]

pub mod code;
mod layout;
mod operands;
mod operation;
mod place;
mod put;
mod reader;
mod refusal;
mod registers;
pub mod rule;
mod run;
mod say;
mod width;

pub use expr_eval::{Addrs, Op, Ops};
pub use layout::{Layout, layout_of};
pub use operands::{address, based, constant, counted, frame_based, register, sized};
pub use operation::Operation;
pub use place::{Frame, OpsErr, Simple};
pub use put::{code_of, put_ops};
pub use reader::read_operation;
pub use refusal::{in_cut, moved};
pub use registers::{number_of, reg_at};
pub use run::ends;
pub use say::add;
pub use width::{Width, read_signed, read_unsigned};

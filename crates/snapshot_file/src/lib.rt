//! The memory of a paused program, and the file that tells it.
#![tactic(auto)]

mod fault;
mod file;
mod laws;
mod mem;
mod registers;
mod regs;
mod snapshot;

pub use fault::SnapErr;
pub use file::read;
pub use laws::{
    a_file_has_at_most_one_fault, a_file_is_spelled_or_at_fault, a_spelled_file_has_no_fault,
    one_memory, one_snapshot,
};
pub use mem::Mem;
pub use registers::{Reg, reg_of};
pub use regs::Regs;
pub use snapshot::Snapshot;

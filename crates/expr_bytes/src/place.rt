//! What the operations of one place say, and why they can't be read.
ghost use Rattle.std.specs.Prelude.{◌≡◌};
ghost use Rattle.expr_bytes.specs.declared.place.OpsErr.TheVariants.{Memory as OutOfMemory};

use expr_eval::Ops;
use rv_io::{Memory, Text};
use snapshot_file::Reg;
use thiserror::Error;

/// What the frame base of a function is (DWARF 5, 3.3.5).
#[derive(Clone, Copy, Debug, PartialEq, Eq)]
pub enum Frame {
    /// Nothing is known of it.
    Unknown,
    /// The number in a register.
    Reg(Reg),
    /// The frame's canonical address.
    Cfa,
}

/// One place, or one value (DWARF 5, 2.6.1).
#[derive(Debug, Drop)]
pub enum Simple {
    /// No operations: the value is nowhere.
    Empty,
    /// In a register.
    Reg(Reg),
    /// In memory, at the sum of the number in a general register and this one.
    Mem(Reg, i32),
    /// In memory, at an address.
    Fixed(u64),
    /// These bytes are the value.
    Value(Text),
    /// What the operations give.
    Ops(Ops),
}

/// Why no place was read.
#[derive(Clone, Copy, Debug, PartialEq, Eq, Error)]
pub enum OpsErr {
    /// The operation that begins at place `offset` of the cut is the first that breaks a rule.
    #[error("the operation at {offset} breaks rule {rule}")]
    Refused { offset: usize, rule: u8 },
    /// Memory has run out.
    #[error("out of memory")]
    Memory,
}

impl From<Memory> for OpsErr {
    ghost from_gives = { λ _ e. e ≡ OutOfMemory };

    fn from(_e: Memory) -> OpsErr {
        OpsErr::Memory
    }
}

//! Operations as their bytes say them.
use expr_eval::Op;
use snapshot_file::Reg;

/// An operation, with what its operands name looked up.
#[derive(Clone, Copy, Debug, PartialEq, Eq)]
pub enum Operation<'a> {
    /// One of the stack machine.
    Machine(Op),
    /// An address.
    Address(u64),
    /// The value is in the register.
    Register(Reg),
    /// The sum of the number in a general register and this one.
    Based(Reg, i64),
    /// The sum of the frame's canonical address and this number.
    CfaBased(i64),
    /// The sum of a frame base that isn't known and this number.
    Unframed(i64),
    /// The bytes are the value.
    Value(&'a [u8]),
}

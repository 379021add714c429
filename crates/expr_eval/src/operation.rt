//! The operations of an expression, and what an expression gives.
use snapshot_file::Reg;

/// An operation on a stack of 64-bit numbers (DWARF 5, 2.5). Sums are modulo 2^64.
#[derive(Clone, Copy, Debug, PartialEq, Eq)]
pub enum Op {
    /// The number.
    Const(u64),
    /// The little-endian number of so many bytes of memory, 1 to 8, at the address on the top.
    Deref(u8),
    /// The top once more.
    Dup,
    /// The stack without its top.
    Drop,
    /// The second once more.
    Over,
    /// The number so far below the top once more; 0 is the top.
    Pick(u8),
    /// The top and the second in each other's place.
    Swap,
    /// The top third, the second on top, the third second.
    Rot,
    And,
    /// The second less the top.
    Minus,
    /// The product of the second and the top.
    Mul,
    /// The top's two's complement.
    Neg,
    /// The top with all bits turned.
    Not,
    Or,
    /// The sum of the second and the top.
    Plus,
    /// The sum of the top and this number.
    PlusConst(u64),
    /// The second shifted to the left by so many bits as the top says; 0 from 64 on.
    Shl,
    /// The second shifted to the right; 0 from 64 on.
    Shr,
    /// The second shifted to the right, with copies of its sign bit coming in; all sign bits from 64 on.
    Shra,
    Xor,
    /// The sum of the number in the general register and this one.
    RegPlus(Reg, i64),
    /// The frame's canonical address.
    Cfa,
    /// A value from the function's entry, which no snapshot has.
    Entry,
    /// The top is the value itself. Stands last.
    StackValue,
}

/// What an expression gives: where the value stands, or the value itself.
#[derive(Clone, Copy, Debug, PartialEq, Eq)]
pub enum Spot {
    Address(u64),
    Number(u64),
}

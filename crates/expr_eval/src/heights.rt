//! How many numbers operations need and give, and whether they fit a stack of 64.
ghost use Rattle.std.specs.Prelude.{◌≡◌, ◌&&◌, nat_lt, true, false, MatchOption};
ghost use Rattle.expr_eval.specs.Invariant.{needs, gives, fits, height_after};

use crate::operation::Op;

/// How many numbers the operation needs on the stack.
fn needs_of(op: Op) -> u32
    ensures { result ≡ needs op }
{
    match op {
        Op::Const(_) | Op::RegPlus(_, _) | Op::Cfa | Op::Entry | Op::StackValue => 0,
        Op::Deref(_) | Op::Dup | Op::Drop | Op::Neg | Op::Not | Op::PlusConst(_) => 1,
        Op::Over | Op::Swap | Op::And | Op::Minus | Op::Mul | Op::Or => 2,
        Op::Plus | Op::Shl | Op::Shr | Op::Shra | Op::Xor => 2,
        Op::Rot => 3,
        Op::Pick(depth) => u32::from(depth) + 1,
    }
}

/// How many numbers stand in their place afterwards.
fn gives_of(op: Op) -> u32
    ensures { result ≡ gives op }
{
    match op {
        Op::Drop | Op::StackValue => 0,
        Op::Const(_) | Op::RegPlus(_, _) | Op::Cfa | Op::Entry => 1,
        Op::Deref(_) | Op::Neg | Op::Not | Op::PlusConst(_) => 1,
        Op::And | Op::Minus | Op::Mul | Op::Or | Op::Plus => 1,
        Op::Shl | Op::Shr | Op::Shra | Op::Xor => 1,
        Op::Dup | Op::Swap => 2,
        Op::Over | Op::Rot => 3,
        Op::Pick(depth) => u32::from(depth) + 2,
    }
}

/// The height after the operations; None where one of them lacks an operand or passes 64 numbers.
fn height_of(ops: &[Op]) -> Option<u32>
    ensures { MatchOption result (fits 0 ops.now ≡ false) (λ h. (fits 0 ops.now ≡ true) × (h ≡ height_after 0 ops.now)) }
{
    let mut height: u32 = 0;
    for op in ops {
        if needs_of(*op) > height {
            return None;
        }
        height = height - needs_of(*op) + gives_of(*op);
        if height > 64 {
            return None;
        }
    }
    Some(height)
}

/// Whether no operation lacks an operand or passes 64 numbers, and a number is there at the end.
pub(crate) fn leave_a_number(ops: &[Op]) -> bool
    ensures { result ≡ fits 0 ops.now && nat_lt 0 (height_after 0 ops.now) }
{
    height_of(ops).is_some_and(|height| height > 0)
}

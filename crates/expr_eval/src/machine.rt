//! What operations give in a snapshot.
ghost use Rattle.std.specs.Prelude.{◌≡◌, ◌+◌, ◌-◌, ◌≤◌, length};
ghost use Rattle.expr_eval.specs.Results.{outcome, step, ends_in_value, result_of};
ghost use Rattle.expr_eval.specs.Invariant.{needs, gives};

use crate::arithmetic::{shl, shr, shra};
use crate::checks::is_stack_value;
use crate::expression::Ops;
use crate::lookups::{cfa_of, read_number, register_plus};
use crate::operation::{Op, Spot};
use crate::stack::Stack;
use snapshot_file::Snapshot;

/// One operation. False where a number that it names is missing.
fn perform(op: Op, snap: &Snapshot, stack: &mut Stack) -> bool
    requires enough { needs op ≤ length stack.old }
    requires room { length stack.old - needs op + gives op ≤ 64 }
    ensures { outcome result stack.new ≡ step 8 snap.now op stack.old }
{
    let top = stack.nth(0);
    let second = stack.nth(1);
    match op {
        Op::Const(number) => stack.put(0, Some(number)),
        Op::Deref(width) => stack.put(1, read_number(&snap.mem, top, width)),
        Op::Dup => stack.put(0, Some(top)),
        Op::Drop => {
            stack.discard(1);
            true
        }
        Op::Over => stack.put(0, Some(second)),
        Op::Pick(depth) => {
            let number = stack.nth(usize::from(depth));
            stack.put(0, Some(number))
        }
        Op::Swap => {
            stack.swap();
            true
        }
        Op::Rot => {
            stack.rotate();
            true
        }
        Op::And => stack.put(2, Some(second & top)),
        Op::Minus => stack.put(2, Some(second.wrapping_sub(top))),
        Op::Mul => stack.put(2, Some(second.wrapping_mul(top))),
        Op::Neg => stack.put(1, Some(top.wrapping_neg())),
        Op::Not => stack.put(1, Some(!top)),
        Op::Or => stack.put(2, Some(second | top)),
        Op::Plus => stack.put(2, Some(second.wrapping_add(top))),
        Op::PlusConst(number) => stack.put(1, Some(top.wrapping_add(number))),
        Op::Shl => stack.put(2, Some(shl(second, top))),
        Op::Shr => stack.put(2, Some(shr(second, top))),
        Op::Shra => stack.put(2, Some(shra(second, top))),
        Op::Xor => stack.put(2, Some(second ^ top)),
        Op::RegPlus(reg, number) => stack.put(0, register_plus(&snap.regs, reg, number)),
        Op::Cfa => stack.put(0, cfa_of(snap)),
        Op::Entry => false,
        Op::StackValue => true,
    }
}

/// Whether the last operation says that the top is the value.
#[tactic(auto, using(crate::proofs::Lasts::ends_at))]
fn ends_in_value(ops: &[Op]) -> bool
    ensures { result ≡ ends_in_value ops.now }
{
    match ops.last() {
        Some(op) => is_stack_value(*op),
        None => false,
    }
}

/// What the operations give in the snapshot; None exactly where a register, the `cfa` or a byte that they name is missing,
/// or they name a value from the function's entry. Takes no memory.
pub fn eval(ops: &Ops, snap: &Snapshot) -> Option<Spot>
    ensures { result ≡ result_of 8 ops.now snap.now }
{
    let list = ops.as_slice();
    let mut stack = Stack::new();
    for op in list {
        if !perform(*op, snap, &mut stack) {
            return None;
        }
    }
    let top = stack.nth(0);
    if ends_in_value(list) {
        Some(Spot::Number(top))
    } else {
        Some(Spot::Address(top))
    }
}

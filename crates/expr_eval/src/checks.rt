//! Which lists of operations are an expression.
ghost use Rattle.std.specs.Prelude.{◌≡◌, ◌↔◌, true};
ghost use Rattle.expr_eval.specs.Results.{is_stack_value};
ghost use Rattle.expr_eval.specs.Invariant.{is_sound, each_sound, value_is_last, AreOps};

use crate::heights::leave_a_number;
use crate::operation::Op;

/// Whether the operation says that the top is the value.
pub(crate) fn is_stack_value(op: Op) -> bool
    ensures { result ≡ is_stack_value op }
{
    matches!(op, Op::StackValue)
}

/// Whether a number is read from 1 to 8 bytes, or from a general register.
fn is_sound(op: Op) -> bool
    ensures { result ≡ is_sound op }
{
    match op {
        Op::Deref(width) => 0 < width && width <= 8,
        Op::RegPlus(reg, _) => reg.width() == 8,
        _ => true,
    }
}

/// Whether each operation is sound.
fn each_sound(ops: &[Op]) -> bool
    ensures { result ≡ each_sound ops.now }
{
    for op in ops {
        if !is_sound(*op) {
            return false;
        }
    }
    true
}

/// Whether `StackValue` stands only last.
fn value_is_last(ops: &[Op]) -> bool
    ensures { result ≡ value_is_last ops.now }
{
    for (i, op) in ops.iter().enumerate() {
        if is_stack_value(*op) && i + 1 < ops.len() {
            return false;
        }
    }
    true
}

/// Whether the operations are 1 to 64 that are sound and fit a stack.
pub(crate) fn are_ops(ops: &[Op]) -> bool
    ensures { result ≡ true ↔ AreOps ops.now }
{
    let few = !ops.is_empty() && ops.len() <= 64;
    few && each_sound(ops) && value_is_last(ops) && leave_a_number(ops)
}

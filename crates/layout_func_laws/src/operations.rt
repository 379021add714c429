//! Whether two operations are the same.
ghost use Rattle.std.specs.Prelude.{◌≡◌};
ghost use Rattle.std.specs.Bool.{Decides};
ghost use Rattle.layout_func_laws.specs.OperationParts.{kind_of, number_in, sum_in};

use expr_eval::Op;
use snapshot_file::Reg;

/// A number for each kind of operation.
fn kind_of(op: Op) -> u8
    ensures { result ≡ kind_of op }
{
    match op {
        Op::Const(_) => 0,
        Op::Deref(_) => 1,
        Op::Dup => 2,
        Op::Drop => 3,
        Op::Over => 4,
        Op::Pick(_) => 5,
        Op::Swap => 6,
        Op::Rot => 7,
        Op::And => 8,
        Op::Minus => 9,
        Op::Mul => 10,
        Op::Neg => 11,
        Op::Not => 12,
        Op::Or => 13,
        Op::Plus => 14,
        Op::PlusConst(_) => 15,
        Op::Shl => 16,
        Op::Shr => 17,
        Op::Shra => 18,
        Op::Xor => 19,
        Op::RegPlus(_, _) => 20,
        Op::Cfa => 21,
        Op::Entry => 22,
        Op::StackValue => 23,
    }
}

/// The number that an operation carries alone, or 0.
fn number_in(op: Op) -> u64
    ensures { result ≡ number_in op }
{
    match op {
        Op::Const(number) | Op::PlusConst(number) => number,
        Op::Deref(number) | Op::Pick(number) => u64::from(number),
        _ => 0,
    }
}

/// The register that an operation adds to, and what it adds.
fn sum_in(op: Op) -> Option<(Reg, i64)>
    ensures { result ≡ sum_in op }
{
    match op {
        Op::RegPlus(reg, number) => Some((reg, number)),
        _ => None,
    }
}

/// Whether the two registers are one.
pub(crate) fn same_reg(a: Reg, b: Reg) -> bool
    ensures { Decides result (a ≡ b) }
{
    a == b
}

/// Whether the two sums are of one register and one number.
fn same_sum(a: Option<(Reg, i64)>, b: Option<(Reg, i64)>) -> bool
    ensures { Decides result (a ≡ b) }
{
    match (a, b) {
        (Some((reg, number)), Some((other, more))) => same_reg(reg, other) && number == more,
        (None, None) => true,
        _ => false,
    }
}

/// Whether the two operations are the same.
#[tactic(auto, using(crate::proofs::OperationParts::same_parts))]
fn same_op(a: Op, b: Op) -> bool
    ensures { Decides result (a ≡ b) }
{
    kind_of(a) == kind_of(b) && number_in(a) == number_in(b) && same_sum(sum_in(a), sum_in(b))
}

/// Whether two lists of operations are the same. Takes no memory.
#[tactic(auto, using(std::proofs::lemmas::List::same_lists))]
pub(crate) fn same_ops(a: &[Op], b: &[Op]) -> bool
    ensures { Decides result (a.now ≡ b.now) }
{
    if a.len() != b.len() {
        return false;
    }
    for i in 0..a.len() {
        if !same_op(a[i], b[i]) {
            return false;
        }
    }
    true
}

//! Whether operations may stand in this order (DWARF 5, 2.6.1).
ghost use Rattle.std.specs.Prelude.{map, IfOk};
ghost use Rattle.std.specs.Bool.{Decides};
ghost use Rattle.expr_bytes.specs.Operations.{oper_of};
ghost use Rattle.expr_bytes.specs.Places.{IsShort, BeginPermitted};
ghost use Rattle.expr_bytes.specs.Runs.{IsUnframed};
ghost use Rattle.expr_reader.specs.Beginnings.{IsSomePlace, AreOnePlace, AreExpression, AreExpressionBeforeNumber};

use crate::say::{expression, on_stack};
use expr_bytes::Operation;
use expr_eval::{Op, Ops};
use rv_io::Memory;
use std::alloc::Global;

/// Whether an operation counts from a frame base that isn't known.
pub(crate) fn is_unframed(oper: Operation<'_>) -> bool
    ensures { Decides result (IsUnframed (oper_of oper.entry)) }
{
    matches!(oper, Operation::Unframed(_))
}

/// Whether a number has at most 32 bits.
fn is_short(n: i64) -> bool
    ensures { Decides result (IsShort n) }
{
    i32::try_from(n).is_ok()
}

/// Whether an operation is a place by itself.
fn is_alone(oper: Operation<'_>) -> bool
    ensures { Decides result (IsSomePlace (oper_of oper.entry)) }
{
    match oper {
        Operation::Address(_) => true,
        Operation::Register(_) => true,
        Operation::Value(_) => true,
        Operation::Based(_, n) => is_short(n),
        Operation::Unframed(n) => is_short(n),
        Operation::Machine(_) | Operation::CfaBased(_) => false,
    }
}

/// Whether the operations are one that is a place by itself.
fn are_one(opers: &[Operation<'_>]) -> bool
    ensures { Decides result (AreOnePlace (map oper_of opers.now)) }
{
    match opers {
        [oper] => is_alone(*oper),
        _ => false,
    }
}

/// Whether the operations are an expression.
fn are_expression(alloc: Global, opers: &[Operation<'_>]) -> Result<bool, Memory>
    ensures { IfOk result (λ are. Decides are (AreExpression (map oper_of opers.now))) }
{
    Ok(expression(alloc, opers)?.is_some())
}

/// Whether the operations and a number after them are an expression.
fn are_before_number(alloc: Global, opers: &[Operation<'_>]) -> Result<bool, Memory>
    ensures { IfOk result (λ are. Decides are (AreExpressionBeforeNumber (map oper_of opers.now))) }
{
    match on_stack(alloc, opers)? {
        Some(mut ops) => {
            ops.push(Op::Const(0))?;
            Ok(Ops::new(ops).is_some())
        }
        None => Ok(false),
    }
}

/// Whether the operations are the beginning of some that say a place: they are one that is, or an expression, or
/// the beginning of one, to which then a number can be added.
pub(crate) fn begin_place(alloc: Global, opers: &[Operation<'_>]) -> Result<bool, Memory>
    ensures { IfOk result (λ begin. Decides begin (BeginPermitted (map oper_of opers.now))) }
{
    if are_one(opers) {
        return Ok(true);
    }
    if are_expression(alloc, opers)? {
        return Ok(true);
    }
    are_before_number(alloc, opers)
}

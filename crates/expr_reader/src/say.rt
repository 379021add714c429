//! Which place operations say (DWARF 5, 2.6.1).
ghost use Rattle.std.specs.Prelude.{◌≡◌, map, IfOk};
ghost use Rattle.expr_bytes.specs.Operations.{oper_of, all_on_stack};
ghost use Rattle.expr_bytes.specs.Places.{IsShort, IsAlone, SayPlace};
ghost use Rattle.expr_bytes.specs.Says.{AnswersPlace};
ghost use Rattle.expr_bytes.specs.declared.place.Simple.TheVariants.{Mem as InMemory};
ghost use Rattle.expr_reader.specs.Beginnings.{IsOneAlone, AnswersExpression};

use expr_bytes::{Operation, Simple, add};
use expr_eval::{Op, Ops};
use rv_io::{List, Memory, Text};
use snapshot_file::Reg;
use std::alloc::Global;

/// What the operations do on the stack; None where one is a place only by itself.
pub(crate) fn on_stack(alloc: Global, opers: &[Operation<'_>]) -> Result<Option<List<Op>>, Memory>
    ensures { IfOk result (λ ops. ops ≡ all_on_stack (map oper_of opers.now)) }
{
    let mut ops = List::new(alloc);
    for oper in opers {
        if !add(&mut ops, *oper)? {
            return Ok(None);
        }
    }
    Ok(Some(ops))
}

/// The expression that the operations are; None where they are none.
pub(crate) fn expression(alloc: Global, opers: &[Operation<'_>]) -> Result<Option<Ops>, Memory>
    ensures { IfOk result (AnswersExpression (map oper_of opers.now)) }
{
    match on_stack(alloc, opers)? {
        Some(ops) => Ok(Ops::new(ops)),
        None => Ok(None),
    }
}

/// The place in memory at the sum of a register and a number; None where the number has more than 32 bits.
fn in_memory(reg: Reg, n: i64) -> Option<Simple>
    ensures { AnswersPlace (λ place. IsShort n × (place ≡ InMemory reg n)) result }
{
    match i32::try_from(n) {
        Ok(n) => Some(Simple::Mem(reg, n)),
        Err(_) => None,
    }
}

/// The place that an operation is by itself; None where it is none.
fn alone(alloc: Global, oper: Operation<'_>) -> Result<Option<Simple>, Memory>
    ensures { IfOk result (AnswersPlace (IsAlone (oper_of oper.entry))) }
{
    Ok(match oper {
        Operation::Address(address) => Some(Simple::Fixed(address)),
        Operation::Register(reg) => Some(Simple::Reg(reg)),
        Operation::Value(bytes) => Some(Simple::Value(Text::from_bytes(alloc, bytes)?)),
        Operation::Based(reg, n) => in_memory(reg, n),
        Operation::Unframed(n) => in_memory(Reg::Rbp, n),
        Operation::Machine(_) | Operation::CfaBased(_) => None,
    })
}

/// The place that the operations are where they are one, by itself; None where they are none so.
fn one_alone(alloc: Global, opers: &[Operation<'_>]) -> Result<Option<Simple>, Memory>
    ensures { IfOk result (AnswersPlace (IsOneAlone (map oper_of opers.now))) }
{
    match opers {
        [oper] => alone(alloc, *oper),
        _ => Ok(None),
    }
}

/// The place that the operations say; None where they say none.
pub(crate) fn say_place(alloc: Global, opers: &[Operation<'_>]) -> Result<Option<Simple>, Memory>
    ensures { IfOk result (AnswersPlace (SayPlace (map oper_of opers.now))) }
{
    if let Some(place) = one_alone(alloc, opers)? {
        return Ok(Some(place));
    }
    match expression(alloc, opers)? {
        Some(ops) => Ok(Some(Simple::Ops(ops))),
        None => Ok(None),
    }
}

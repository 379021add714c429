//! What an operation does on the stack (DWARF 5, 2.5).
ghost use Rattle.std.specs.Prelude.{◌≡◌, length, take, IfOk, OnErr};
ghost use Rattle.expr_bytes.specs.Operations.{oper_of};
ghost use Rattle.expr_bytes.specs.Says.{OnStack};

use crate::operation::Operation;
use expr_eval::Op;
use rv_io::{List, Memory};
use snapshot_file::Reg;

/// What an operation does on the stack is added; false where it is a place only by itself. Out of
/// memory, a front of it may be there, after the operations that were.
pub fn add(ops: &mut List<Op>, oper: Operation<'_>) -> Result<bool, Memory>
    ensures added { IfOk result (OnStack ops.old ops.new (oper_of oper.entry)) }
    ensures front { OnErr result (take (length ops.old) ops.new ≡ ops.old) }
{
    match oper {
        Operation::Machine(op) => ops.push(op)?,
        Operation::Address(address) => ops.push(Op::Const(address))?,
        Operation::Based(reg, n) => ops.push(Op::RegPlus(reg, n))?,
        Operation::Unframed(n) => ops.push(Op::RegPlus(Reg::Rbp, n))?,
        Operation::CfaBased(n) => {
            ops.push(Op::Cfa)?;
            ops.push(Op::Const(n.cast_unsigned()))?;
            ops.push(Op::Plus)?;
        }
        Operation::Register(_) | Operation::Value(_) => return Ok(false),
    }
    Ok(true)
}

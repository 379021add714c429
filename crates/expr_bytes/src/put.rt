//! How the operations of an expression are written (DWARF 5, 2.5 and 7.7.1).
ghost use Rattle.std.specs.Prelude.{◌≡◌, true, Some, OnOk, OnErr};
ghost use Rattle.rv_bytes.specs.Writers.{IsPut, Extends};
ghost use Rattle.expr_eval.specs.Invariant.{is_sound, each_sound};
ghost use Rattle.expr_eval.specs.Addresses.{Addresses};
ghost use Rattle.expr_bytes.specs.Layouts.{layout_of};
ghost use Rattle.expr_bytes.specs.Operands.{operands, operation};
ghost use Rattle.expr_bytes.specs.Written.{layout_by, oper_by, ArePut, AppendsPlace};
ghost use Rattle.expr_bytes.specs.declared.place.Frame.{Frame};

use crate::code;
use crate::registers::number_of;
use expr_eval::{Op, Ops};
use rv_bytes::{put_sleb, put_u8, put_uleb};
use rv_io::{Buf, Memory};

/// The code by which an operation is written, which must be sound: its register is general, and
/// it reads 1 to 8 bytes.
#[tactic(auto, unfolding(crate::specs::Layouts::layout_of))]
pub fn code_of(op: Op) -> u8
    requires { is_sound op ≡ true }
    ensures { layout_of result ≡ Some (layout_by op) }
{
    match op {
        Op::Const(_) => code::CONSTU,
        Op::Deref(_) => code::DEREF_SIZE,
        Op::Dup => code::DUP,
        Op::Drop => code::DROP,
        Op::Over => code::OVER,
        Op::Pick(_) => code::PICK,
        Op::Swap => code::SWAP,
        Op::Rot => code::ROT,
        Op::And => code::AND,
        Op::Minus => code::MINUS,
        Op::Mul => code::MUL,
        Op::Neg => code::NEG,
        Op::Not => code::NOT,
        Op::Or => code::OR,
        Op::Plus => code::PLUS,
        Op::PlusConst(_) => code::PLUS_UCONST,
        Op::Shl => code::SHL,
        Op::Shr => code::SHR,
        Op::Shra => code::SHRA,
        Op::Xor => code::XOR,
        Op::RegPlus(reg, _) => code::BREG0 + number_of(reg),
        Op::Cfa => code::CALL_FRAME_CFA,
        Op::Entry => code::ENTRY_VALUE,
        Op::StackValue => code::STACK_VALUE,
    }
}

/// What follows the code of an operation. Out of memory, a front of it may be there.
fn put_operands(out: &mut Buf, op: Op) -> Result<(), Memory>
    requires { is_sound op ≡ true }
    ensures put { (frame : Frame) (addrs : Addresses) → OnOk result (IsPut (operands frame addrs (Some (layout_by op))) (Some (oper_by op)) out.old out.new) }
    ensures kept { Extends out.old out.new }
{
    match op {
        Op::Const(n) => put_uleb(out, n),
        Op::PlusConst(n) => put_uleb(out, n),
        Op::Deref(width) => put_u8(out, width),
        Op::Pick(depth) => put_u8(out, depth),
        Op::RegPlus(_, n) => put_sleb(out, n),
        Op::Entry => put_uleb(out, 0),
        _ => Ok(()),
    }
}

/// An operation. Out of memory, a front of it may be there.
fn put_op(out: &mut Buf, op: Op) -> Result<(), Memory>
    requires { is_sound op ≡ true }
    ensures put { (frame : Frame) (addrs : Addresses) → OnOk result (IsPut (operation frame addrs) (Some (oper_by op)) out.old out.new) }
    ensures kept { Extends out.old out.new }
{
    put_u8(out, code_of(op))?;
    put_operands(out, op)
}

/// The operations, one after the other. Out of memory, a front of them may be there.
fn put_each(out: &mut Buf, ops: &[Op]) -> Result<(), Memory>
    requires { each_sound ops.now ≡ true }
    ensures put { OnOk result (ArePut ops.now out.old out.new) }
    ensures kept { Extends out.old out.new }
{
    for op in ops {
        put_op(out, *op)?;
    }
    Ok(())
}

/// Appends the operations (DWARF 5, 2.5 and 7.7.1).
///
/// Before the end of the bytes or a piece, the appended bytes say the operations, wherever they stand; but one
/// `RegPlus` whose number has at most 32 bits is that place in memory. Out of memory, the buffer is as it was.
#[tactic(auto, using(crate::proofs::Written::place_put))]
pub fn put_ops(out: &mut Buf, ops: &Ops) -> Result<(), Memory>
    // The appended bytes say the operations, wherever they stand.
    ensures appended { OnOk result (AppendsPlace ops.now out.old out.new) }

    // Out of memory, nothing is appended.
    ensures same { OnErr result (out.new ≡ out.old) }
{
    let start = out.as_bytes().len();
    match put_each(out, ops.as_slice()) {
        Ok(()) => Ok(()),
        Err(e) => {
            out.truncate(start);
            Err(e)
        }
    }
}

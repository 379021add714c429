//! How one operation is read (DWARF 5, 2.5 and 7.7.1).
ghost use Rattle.std.specs.Option.{option_map};
ghost use Rattle.std.specs.Prelude.{Some, IfOk, IfErr};
ghost use Rattle.rv_bytes.specs.Reads.{Takes, IsRefusedBy};
ghost use Rattle.rv_bytes.specs.Results.{ReadsBy};
ghost use Rattle.expr_bytes.specs.Operands.{operation};
ghost use Rattle.expr_bytes.specs.Operations.{oper_of};
ghost use Rattle.expr_bytes.specs.Readers.{read_operands, read_coded, read_operation};

use crate::layout::{Layout, layout_of};
use crate::operands::{address, based, constant, counted, frame_based, register, sized};
use crate::operation::Operation;
use crate::place::Frame;
use crate::refusal::{moved, refused};
use crate::registers::reg_at;
use crate::rule;
use crate::width::{read_signed, read_unsigned};
use expr_eval::{Addrs, Op};
use rv_bytes::{Cut, DwErr};

/// Reads what follows a code. A fault is refused at the place where it shows.
fn read_operands<'a>(
    cut: &mut Cut<'a>,
    frame: Frame,
    addrs: &Addrs<'_>,
    layout: Layout,
) -> Result<Option<Operation<'a>>, DwErr>
    ensures { ReadsBy (option_map oper_of) (read_operands frame addrs.now (Some layout) cut.old.at cut.old.rest) result cut.new }
{
    match layout {
        Layout::Plain(op) => Ok(Some(Operation::Machine(op))),
        Layout::Nop => Ok(None),
        Layout::Address => Ok(Some(Operation::Address(cut.u64()?))),
        Layout::AddressIndex => {
            let index = cut.uleb()?;
            address(cut, addrs.address(index))
        }
        Layout::Constant(width) => Ok(constant(read_unsigned(cut, width)?)),
        Layout::SignedConstant(width) => Ok(constant(read_signed(cut, width)?)),
        Layout::ConstantLeb => Ok(constant(cut.uleb()?)),
        Layout::SignedConstantLeb => Ok(constant(cut.sleb()?.cast_unsigned())),
        Layout::DerefSize => {
            let size = cut.u8()?;
            sized(cut, size)
        }
        Layout::Pick => Ok(Some(Operation::Machine(Op::Pick(cut.u8()?)))),
        Layout::PlusConst => Ok(Some(Operation::Machine(Op::PlusConst(cut.uleb()?)))),
        Layout::Register(number) => register(cut, reg_at(u64::from(number))),
        Layout::RegisterIndex => {
            let number = cut.uleb()?;
            register(cut, reg_at(number))
        }
        Layout::Based(number) => {
            let n = cut.sleb()?;
            based(cut, reg_at(u64::from(number)), n)
        }
        Layout::BasedIndex => {
            let number = cut.uleb()?;
            let n = cut.sleb()?;
            based(cut, reg_at(number), n)
        }
        Layout::FrameBased => {
            let n = cut.sleb()?;
            frame_based(cut, frame, n)
        }
        Layout::Value => Ok(Some(Operation::Value(counted(cut)?))),
        Layout::Entry => {
            counted(cut)?;
            Ok(Some(Operation::Machine(Op::Entry)))
        }
    }
}

/// Reads a code, and what follows it. A fault is refused at the place where it shows.
fn read_coded<'a>(
    cut: &mut Cut<'a>,
    frame: Frame,
    addrs: &Addrs<'_>,
) -> Result<Option<Operation<'a>>, DwErr>
    ensures { ReadsBy (option_map oper_of) (read_coded frame addrs.now cut.old.at cut.old.rest) result cut.new }
{
    let code = cut.u8()?;
    match layout_of(code) {
        Some(layout) => read_operands(cut, frame, addrs, layout),
        None => Err(refused(cut.at(), rule::OPERATION)),
    }
}

/// Reads the next operation, as one item. What is invalid in it is refused where it begins.
fn read_item<'a>(
    cut: &mut Cut<'a>,
    frame: Frame,
    addrs: &Addrs<'_>,
) -> Result<Option<Operation<'a>>, DwErr>
    ensures { ReadsBy (option_map oper_of) (read_operation frame addrs.now cut.old.at cut.old.rest) result cut.new }
{
    let at = cut.at();
    match read_coded(cut, frame, addrs) {
        Ok(operation) => Ok(operation),
        Err(e) => Err(moved(e, at)),
    }
}

/// Reads the next operation, and moves `cut` past it; None where it does nothing (DWARF 5, 2.5 and 7.7.1).
///
/// An operation is one item, so the `offset` of a refusal is the place of its first byte. Its rules: 10
/// where the bytes end inside it, 11 where a LEB128 number is too wide, 31 where an index has no address,
/// 35 where its code, register or size is none of those that are read. Where the cut stands after a
/// refusal isn't said.
pub fn read_operation<'a>(
    cut: &mut Cut<'a>,
    frame: Frame,
    addrs: &Addrs<'_>,
) -> Result<Option<Operation<'a>>, DwErr>
    // What is read stands at the place, and the place moves past it.
    ensures taken { IfOk result (λ o. Takes (operation frame addrs.now) cut.old cut.new (option_map oper_of o)) }

    // What is refused is no operation, and has this cause.
    ensures refused { IfErr result (IsRefusedBy (operation frame addrs.now) cut.old) }

    // The same in the words of readers, for the proofs of callers.
    ensures reads { ReadsBy (option_map oper_of) (read_operation frame addrs.now cut.old.at cut.old.rest) result cut.new }
{
    read_item(cut, frame, addrs)
}

//! The operands of one operation, by which it is told (DWARF 5, 2.5 and 7.7.1).
ghost use Rattle.std.specs.Prelude.{◌≡◌};
ghost use Rattle.std.specs.Option.{option_map};
ghost use Rattle.rv_bytes.specs.Results.{ReadsBy};
ghost use Rattle.rv_bytes.specs.NumberReaders.{read_bytes, read_uleb};
ghost use Rattle.rv_bytes.specs.Readers.{and_then};
ghost use Rattle.expr_bytes.specs.Operations.{oper_of};
ghost use Rattle.expr_bytes.specs.Operands.{constant};
ghost use Rattle.expr_bytes.specs.Readers.{read_address, read_register, read_based, read_frame_based, read_sized};

use crate::operation::Operation;
use crate::place::Frame;
use crate::refusal::refused;
use crate::rule;
use expr_eval::Op;
use rv_bytes::{Cut, DwErr};
use snapshot_file::Reg;

/// The address that an index has; `cut` is past the index. One without an address is refused by
/// rule 31, at the cut's place.
pub fn address<'a>(cut: &Cut<'_>, address: Option<u64>) -> Result<Option<Operation<'a>>, DwErr>
    ensures { ReadsBy (option_map oper_of) (read_address address cut.now.at cut.now.rest) result cut.now }
{
    match address {
        Some(address) => Ok(Some(Operation::Address(address))),
        None => Err(refused(cut.at(), rv_bytes::rule::OUTSIDE)),
    }
}

/// The register that has the value; no register is refused by rule 35, at the cut's place.
pub fn register<'a>(cut: &Cut<'_>, reg: Option<Reg>) -> Result<Option<Operation<'a>>, DwErr>
    ensures { ReadsBy (option_map oper_of) (read_register reg cut.now.at cut.now.rest) result cut.now }
{
    match reg {
        Some(reg) => Ok(Some(Operation::Register(reg))),
        None => Err(refused(cut.at(), rule::OPERATION)),
    }
}

/// The sum of a general register and a number; none, or one that isn't of 8 bytes, is refused by
/// rule 35, at the cut's place.
pub fn based<'a>(cut: &Cut<'_>, reg: Option<Reg>, n: i64) -> Result<Option<Operation<'a>>, DwErr>
    ensures { ReadsBy (option_map oper_of) (read_based reg n cut.now.at cut.now.rest) result cut.now }
{
    match reg {
        Some(reg) if reg.width() == 8 => Ok(Some(Operation::Based(reg, n))),
        _ => Err(refused(cut.at(), rule::OPERATION)),
    }
}

/// The sum of the frame base and a number; a register that isn't of 8 bytes is refused by rule
/// 35, at the cut's place.
pub fn frame_based<'a>(cut: &Cut<'_>, frame: Frame, n: i64) -> Result<Option<Operation<'a>>, DwErr>
    ensures { ReadsBy (option_map oper_of) (read_frame_based frame n cut.now.at cut.now.rest) result cut.now }
{
    match frame {
        Frame::Unknown => Ok(Some(Operation::Unframed(n))),
        Frame::Reg(reg) => based(cut, Some(reg), n),
        Frame::Cfa => Ok(Some(Operation::CfaBased(n))),
    }
}

/// A read of so many bytes from memory, which are 1 to 8; every other size is refused by rule 35,
/// at the cut's place.
pub fn sized<'a>(cut: &Cut<'_>, size: u8) -> Result<Option<Operation<'a>>, DwErr>
    ensures { ReadsBy (option_map oper_of) (read_sized size cut.now.at cut.now.rest) result cut.now }
{
    if 0 < size && size <= 8 {
        Ok(Some(Operation::Machine(Op::Deref(size))))
    } else {
        Err(refused(cut.at(), rule::OPERATION))
    }
}

/// As many bytes as a length says, which comes first. It is refused where the cut ends inside it,
/// or where the length is too wide.
pub fn counted<'a>(cut: &mut Cut<'a>) -> Result<&'a [u8], DwErr>
    ensures { ReadsBy (λ v. v.now) (and_then (read_uleb cut.old.at cut.old.rest) read_bytes) result cut.new }
{
    let count = cut.uleb()?;
    Ok(cut.take(count as usize)?)
}

/// The operation that gives this number.
pub fn constant<'a>(n: u64) -> Option<Operation<'a>>
    ensures { option_map oper_of result ≡ constant n }
{
    Some(Operation::Machine(Op::Const(n)))
}

//! Frame bases (DWARF 5, 3.3.5, DW_AT_frame_base).
ghost use Rattle.std.specs.Prelude.{◌≡◌, ◌<◌, length, IfSome};
ghost use Rattle.dwarf_abbrev.specs.Values.{val_of};
ghost use Rattle.dwarf_entries.specs.AddressOps.{are_nops, first_op};
ghost use Rattle.rv_bytes.specs.NumberReaders.{read_uleb};
ghost use Rattle.dwarf_zones.specs.Frames.{alone, by_number, by_op, frame_by, frame_in, frame_of, in_register};
ghost use Rattle.std.specs.Option.{option_map};

use dwarf_abbrev::Attr;
use dwarf_dies::Die;
use dwarf_entries::at;
use expr_bytes::{Frame, reg_at};
use rv_bytes::Cut;
use snapshot_file::Reg;

/// DW_OP_reg0
const REG0: u8 = 0x50;

/// DW_OP_reg31
const REG31: u8 = 0x6f;

/// DW_OP_regx
const REGX: u8 = 0x90;

/// DW_OP_nop
const NOP: u8 = 0x96;

/// DW_OP_call_frame_cfa
const CALL_FRAME_CFA: u8 = 0x9c;

/// Whether all operations are `nop`.
fn are_nops(bytes: &[u8]) -> bool
    ensures { result ≡ are_nops bytes.now }
{
    bytes.iter().all(|op| *op == NOP)
}

/// Where the first operation is that isn't `nop`.
fn first_op(expr: &[u8]) -> Option<usize>
    ensures place { result ≡ first_op expr.now }
    ensures within { IfSome result (λ i. i < length expr.now) }
{
    expr.iter().position(|op| *op != NOP)
}

/// The number in a register, where that is one of those that are read.
fn in_register(reg: Option<Reg>) -> Frame
    ensures { result ≡ in_register reg }
{
    match reg {
        Some(reg) => Frame::Reg(reg),
        None => Frame::Unknown,
    }
}

/// A frame base, where only `nop` is after it.
fn alone(frame: Frame, bytes: &[u8]) -> Frame
    ensures { result ≡ alone frame bytes.now }
{
    if are_nops(bytes) {
        frame
    } else {
        Frame::Unknown
    }
}

/// The number in the register whose number these bytes begin with.
fn by_number(bytes: &[u8]) -> Frame
    ensures { result ≡ by_number (read_uleb 0 bytes.now) }
{
    let mut cut = Cut::new(bytes);
    let Ok(number) = cut.uleb() else {
        return Frame::Unknown;
    };
    match cut.take(cut.left()) {
        Ok(rest) => alone(in_register(reg_at(number)), rest),
        Err(_) => Frame::Unknown,
    }
}

/// The frame base that this operation is, with these bytes after it.
fn by_op(op: u8, bytes: &[u8]) -> Frame
    ensures { result ≡ by_op op bytes.now }
{
    match op {
        REG0..=REG31 => alone(in_register(reg_at(u64::from(op - REG0))), bytes),
        REGX => by_number(bytes),
        CALL_FRAME_CFA => alone(Frame::Cfa, bytes),
        _ => Frame::Unknown,
    }
}

/// The frame base that an expression is.
fn frame_in(expr: &[u8]) -> Frame
    ensures { result ≡ frame_in expr.now }
{
    match first_op(expr) {
        Some(at) => by_op(expr[at], &expr[at + 1..]),
        None => Frame::Unknown,
    }
}

/// The frame base of a function: the number in a register, or the frame's canonical address, where its
/// frame_base is that one operation, `nop` aside; unknown for all else, a list among it, which breaks no
/// rule. Takes no memory.
pub fn frame_of(die: &Die<'_>) -> Frame
    ensures { result ≡ frame_of die.now.die }
{
    match die.value(at::FRAME_BASE) {
        Some(Attr::Expr(expr)) => frame_in(expr),
        _ => Frame::Unknown,
    }
}

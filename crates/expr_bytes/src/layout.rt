//! How the operands of each operation lie (DWARF 5, 2.5 and 7.7.1).
ghost use Rattle.std.specs.Prelude.{◌≡◌};
ghost use Rattle.expr_bytes.specs.Layouts.{layout_of};

use crate::code;
use crate::width::Width;
use expr_eval::Op;

/// What follows the code of an operation.
#[derive(Clone, Copy, Debug, PartialEq, Eq)]
pub enum Layout {
    /// Nothing: it is this operation.
    Plain(Op),
    /// Nothing, and nothing is done.
    Nop,
    /// An address.
    Address,
    /// The index of an address.
    AddressIndex,
    /// A number of so many bytes.
    Constant(Width),
    /// A number of so many bytes with a sign.
    SignedConstant(Width),
    /// A number.
    ConstantLeb,
    /// A number with a sign.
    SignedConstantLeb,
    /// How many bytes are read.
    DerefSize,
    /// How far below the top.
    Pick,
    /// The number that is added.
    PlusConst,
    /// Nothing: the value is in the register of this number.
    Register(u8),
    /// The number of the register.
    RegisterIndex,
    /// What is added to the register of this number.
    Based(u8),
    /// The number of the register, and what is added to it.
    BasedIndex,
    /// What is added to the frame base.
    FrameBased,
    /// A length, and as many bytes, which are the value.
    Value,
    /// A length, and as many bytes, which say what the value was at the entry of the function.
    Entry,
}

/// What follows the code; None where the code is none of those that are read in a place.
#[tactic(auto, unfolding(crate::specs::Layouts::layout_of))]
pub fn layout_of(code: u8) -> Option<Layout>
    ensures { result ≡ layout_of code }
{
    let layout = match code {
        code::ADDR => Layout::Address,
        code::DEREF => Layout::Plain(Op::Deref(8)),
        code::CONST1U => Layout::Constant(Width::One),
        code::CONST1S => Layout::SignedConstant(Width::One),
        code::CONST2U => Layout::Constant(Width::Two),
        code::CONST2S => Layout::SignedConstant(Width::Two),
        code::CONST4U => Layout::Constant(Width::Four),
        code::CONST4S => Layout::SignedConstant(Width::Four),
        code::CONST8U => Layout::Constant(Width::Eight),
        code::CONST8S => Layout::SignedConstant(Width::Eight),
        code::CONSTU => Layout::ConstantLeb,
        code::CONSTS => Layout::SignedConstantLeb,
        code::DUP => Layout::Plain(Op::Dup),
        code::DROP => Layout::Plain(Op::Drop),
        code::OVER => Layout::Plain(Op::Over),
        code::PICK => Layout::Pick,
        code::SWAP => Layout::Plain(Op::Swap),
        code::ROT => Layout::Plain(Op::Rot),
        code::AND => Layout::Plain(Op::And),
        code::MINUS => Layout::Plain(Op::Minus),
        code::MUL => Layout::Plain(Op::Mul),
        code::NEG => Layout::Plain(Op::Neg),
        code::NOT => Layout::Plain(Op::Not),
        code::OR => Layout::Plain(Op::Or),
        code::PLUS => Layout::Plain(Op::Plus),
        code::PLUS_UCONST => Layout::PlusConst,
        code::SHL => Layout::Plain(Op::Shl),
        code::SHR => Layout::Plain(Op::Shr),
        code::SHRA => Layout::Plain(Op::Shra),
        code::XOR => Layout::Plain(Op::Xor),
        code::LIT0..=code::LIT31 => Layout::Plain(Op::Const(u64::from(code - code::LIT0))),
        code::REG0..=code::REG31 => Layout::Register(code - code::REG0),
        code::BREG0..=code::BREG31 => Layout::Based(code - code::BREG0),
        code::REGX => Layout::RegisterIndex,
        code::FBREG => Layout::FrameBased,
        code::BREGX => Layout::BasedIndex,
        code::DEREF_SIZE => Layout::DerefSize,
        code::NOP => Layout::Nop,
        code::CALL_FRAME_CFA => Layout::Plain(Op::Cfa),
        code::IMPLICIT_VALUE => Layout::Value,
        code::STACK_VALUE => Layout::Plain(Op::StackValue),
        code::ADDRX => Layout::AddressIndex,
        code::ENTRY_VALUE => Layout::Entry,
        _ => return None,
    };
    Some(layout)
}

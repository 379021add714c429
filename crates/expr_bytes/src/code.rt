//! The codes of operations, named as the standard names them (DWARF 5, 7.7.1).

pub const ADDR: u8 = 0x03;

pub const DEREF: u8 = 0x06;

// Constants.
pub const CONST1U: u8 = 0x08;

pub const CONST1S: u8 = 0x09;

pub const CONST2U: u8 = 0x0a;

pub const CONST2S: u8 = 0x0b;

pub const CONST4U: u8 = 0x0c;

pub const CONST4S: u8 = 0x0d;

pub const CONST8U: u8 = 0x0e;

pub const CONST8S: u8 = 0x0f;

pub const CONSTU: u8 = 0x10;

pub const CONSTS: u8 = 0x11;

// Moves on the stack.
pub const DUP: u8 = 0x12;

pub const DROP: u8 = 0x13;

pub const OVER: u8 = 0x14;

pub const PICK: u8 = 0x15;

pub const SWAP: u8 = 0x16;

pub const ROT: u8 = 0x17;

// Arithmetic.
pub const AND: u8 = 0x1a;

pub const MINUS: u8 = 0x1c;

pub const MUL: u8 = 0x1e;

pub const NEG: u8 = 0x1f;

pub const NOT: u8 = 0x20;

pub const OR: u8 = 0x21;

pub const PLUS: u8 = 0x22;

pub const PLUS_UCONST: u8 = 0x23;

pub const SHL: u8 = 0x24;

pub const SHR: u8 = 0x25;

pub const SHRA: u8 = 0x26;

pub const XOR: u8 = 0x27;

// The numbers 0 to 31, the registers 0 to 31, and each of these with a number added.
pub const LIT0: u8 = 0x30;

pub const LIT31: u8 = 0x4f;

pub const REG0: u8 = 0x50;

pub const REG31: u8 = 0x6f;

pub const BREG0: u8 = 0x70;

pub const BREG31: u8 = 0x8f;

// Registers by their numbers, and the frame.
pub const REGX: u8 = 0x90;

pub const FBREG: u8 = 0x91;

pub const BREGX: u8 = 0x92;

/// Ends a piece, after its place.
pub const PIECE: u8 = 0x93;

pub const DEREF_SIZE: u8 = 0x94;

pub const NOP: u8 = 0x96;

pub const CALL_FRAME_CFA: u8 = 0x9c;

// Values.
pub const IMPLICIT_VALUE: u8 = 0x9e;

pub const STACK_VALUE: u8 = 0x9f;

pub const ADDRX: u8 = 0xa1;

pub const ENTRY_VALUE: u8 = 0xa3;

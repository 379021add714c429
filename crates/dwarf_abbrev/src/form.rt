//! The codes of attribute forms, named as the standard names them (DWARF 5, 7.5.6).

// The class address.
pub const ADDR: u64 = 0x01;

pub const ADDRX: u64 = 0x1b;

pub const ADDRX1: u64 = 0x29;

pub const ADDRX2: u64 = 0x2a;

pub const ADDRX3: u64 = 0x2b;

pub const ADDRX4: u64 = 0x2c;

// The class constant.
pub const DATA1: u64 = 0x0b;

pub const DATA2: u64 = 0x05;

pub const DATA4: u64 = 0x06;

pub const DATA8: u64 = 0x07;

pub const DATA16: u64 = 0x1e;

pub const UDATA: u64 = 0x0f;

pub const SDATA: u64 = 0x0d;

pub const IMPLICIT_CONST: u64 = 0x21;

// The class string.
pub const STRING: u64 = 0x08;

pub const STRP: u64 = 0x0e;

pub const LINE_STRP: u64 = 0x1f;

pub const STRX: u64 = 0x1a;

pub const STRX1: u64 = 0x25;

pub const STRX2: u64 = 0x26;

pub const STRX3: u64 = 0x27;

pub const STRX4: u64 = 0x28;

// The class reference.
pub const REF1: u64 = 0x11;

pub const REF2: u64 = 0x12;

pub const REF4: u64 = 0x13;

pub const REF8: u64 = 0x14;

pub const REF_UDATA: u64 = 0x15;

pub const REF_ADDR: u64 = 0x10;

// The class block.
pub const BLOCK1: u64 = 0x0a;

pub const BLOCK2: u64 = 0x03;

pub const BLOCK4: u64 = 0x04;

pub const BLOCK: u64 = 0x09;

// The class expression.
pub const EXPRLOC: u64 = 0x18;

// The class list.
pub const SEC_OFFSET: u64 = 0x17;

pub const LOCLISTX: u64 = 0x22;

pub const RNGLISTX: u64 = 0x23;

// The class flag.
pub const FLAG: u64 = 0x0c;

pub const FLAG_PRESENT: u64 = 0x19;

//! The kinds of location list entries, named as the standard names them (DWARF 5, 7.7.3).

pub const END_OF_LIST: u8 = 0x00;

pub const BASE_ADDRESSX: u8 = 0x01;

pub const STARTX_ENDX: u8 = 0x02;

pub const STARTX_LENGTH: u8 = 0x03;

pub const OFFSET_PAIR: u8 = 0x04;

pub const DEFAULT_LOCATION: u8 = 0x05;

pub const BASE_ADDRESS: u8 = 0x06;

pub const START_END: u8 = 0x07;

pub const START_LENGTH: u8 = 0x08;

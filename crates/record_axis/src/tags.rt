// The tags of an axis's fields.
pub const KIND: u8 = 0x02;

pub const POSITION: u8 = 0x03;

pub const DEPTH: u8 = 0x04;

pub const WIDTH: u8 = 0x05;

pub const TURN: u8 = 0x06;

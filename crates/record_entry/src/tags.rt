// The tag of the field that an entry begins with; the others are an axis's own.
pub const AXIS: u8 = 0x09;

// The tags of a record's first field and of its last; those between are an axis's own.
pub const LAYOUT: u8 = 0x01;

pub const END: u8 = 0x7f;

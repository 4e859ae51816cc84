// The tag of the field after the layout; those after it are an entry's own, and the last is layout 1's.
pub const COUNT: u8 = 0x08;

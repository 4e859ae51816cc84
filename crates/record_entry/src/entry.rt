// One axis in the record of a whole table.
use record_axis::saved::Saved;

// The number of an axis, any byte, and what the record says of it.
#[derive(Clone, Copy)]
pub struct Entry {
    pub axis: u8,
    pub saved: Saved,
}

// Save and restore.
ghost use Rattle.row_saving.specs.Saving.{restore_row};
ghost use Rattle.host_change.specs.Making.{MakesToC};
ghost use Rattle.host_table.specs.Call.{SavesToC};

use host_answers::answer::{Answer, of_written};

// The axis's record at the front of a buffer: LENGTH, AXIS, BROKEN, EMPTY, ROOM.
pub fn ubrenchip_save(table: &[u64], axis: u64, buffer: &mut [u8]) -> Answer
    ensures { SavesToC table.now axis buffer.old buffer.new result }
{
    of_written(table::saving::save(table, axis, buffer))
}

// The axis that a record says, in an empty row: LENGTH, AXIS, then the record's own checks in its own order, OCCUPIED.
pub fn ubrenchip_restore(table: &mut [u64], axis: u64, slice: &[u8]) -> Answer
    ensures { MakesToC (restore_row slice.now) table.old axis table.new result }
{
    Answer::from(table::saving::restore(table, axis, slice))
}

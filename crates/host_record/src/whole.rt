// The whole-table save and restore.
ghost use Rattle.host_record.specs.Whole.{TableSavesToC, TableRestoresToC};

use host_answers::answer::{Answer, of_written};

// The record of every row that is not empty at the front of a buffer: LENGTH, BROKEN, ROOM.
pub fn ubrenchip_save_table(table: &[u64], buffer: &mut [u8]) -> Answer
    ensures { TableSavesToC table.now buffer.old buffer.new result }
{
    of_written(table_record::save::save_table(table, buffer))
}

// Every axis that a record says, in a table of empty rows: LENGTH, then the record's own checks in its own order, AXIS, OCCUPIED.
pub fn ubrenchip_restore_table(table: &mut [u64], slice: &[u8]) -> Answer
    ensures { TableRestoresToC slice.now table.old table.new result }
{
    Answer::from(table_record::restore::restore_table(table, slice))
}

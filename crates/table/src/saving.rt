// Save and restore.
ghost use Rattle.row_saving.specs.Saving.{restore_row};
ghost use Rattle.table_change.specs.Making.{Makes};
ghost use Rattle.table.specs.Call.{SaveMakes};

use refusal::Refusal;
use table_change::commit::make;
use table_rows::locate;

// The axis's record at the front of a buffer: LENGTH, AXIS, BROKEN, EMPTY, ROOM.
pub fn save(table: &[u64], axis: u64, buf: &mut [u8]) -> Result<usize, Refusal>
    ensures { SaveMakes table.now axis buf.old buf.new result }
{
    row_saving::save(locate(table, axis)?, buf)
}

// The axis that a record says, in an empty row: LENGTH, AXIS, then the record's own checks in its own order, OCCUPIED.
pub fn restore(table: &mut [u64], axis: u64, slice: &[u8]) -> Result<(), Refusal>
    ensures { Makes (restore_row slice.now) table.old axis table.new result }
{
    make(table, axis, |row| row_saving::restore(row, slice))
}

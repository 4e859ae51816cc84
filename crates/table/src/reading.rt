// A reading of a narrow counter.
ghost use Rattle.table.specs.Call.{ReadingMakes};

use refusal::Refusal;
use table_change::commit::commit;
use table_rows::locate;

// The position that a reading gives, stored and answered: LENGTH, AXIS, BROKEN, EMPTY, KIND, VALUE, HALF, RANGE.
pub fn reading(table: &mut [u64], axis: u64, reading: u64) -> Result<i64, Refusal>
    ensures { ReadingMakes reading table.old axis table.new result }
{
    let row = locate(table, axis)?;
    let (position, made) = row_counter::read(row, reading)?;
    commit(table, axis, Ok(made))?;
    Ok(position)
}

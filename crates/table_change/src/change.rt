// Preset, arm and acknowledge.
ghost use Rattle.row_calls.specs.Calls.{preset_row, arm_row, acknowledge_row};
ghost use Rattle.table_change.specs.Making.{Makes};

use crate::commit::make;
use refusal::Refusal;
use row_calls::change;

// Another position: LENGTH, AXIS, BROKEN, EMPTY, VALUE.
pub fn preset(table: &mut [u64], axis: u64, position: i64) -> Result<(), Refusal>
    ensures { Makes (preset_row position) table.old axis table.new result }
{
    make(table, axis, |row| change::preset(row, position))
}

// The next reference edge is to home: LENGTH, AXIS, BROKEN, EMPTY, KIND.
pub fn arm(table: &mut [u64], axis: u64) -> Result<(), Refusal>
    ensures { Makes arm_row table.old axis table.new result }
{
    make(table, axis, change::arm)
}

// Doubles and INDEX have been seen: LENGTH, AXIS, BROKEN, EMPTY, KIND.
pub fn acknowledge(table: &mut [u64], axis: u64) -> Result<(), Refusal>
    ensures { Makes acknowledge_row table.old axis table.new result }
{
    make(table, axis, change::acknowledge)
}

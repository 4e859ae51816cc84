// Setup, which takes an empty row alone, and erase, which takes any.
ghost use Rattle.row_calls.specs.Calls.{setup_row, erase_row};
ghost use Rattle.table_change.specs.Making.{Makes};

use crate::commit::make;
use axis::config::Setting;
use refusal::Refusal;

// An axis set up in an empty row: LENGTH, AXIS, OCCUPIED, VALUE.
pub fn setup(
    table: &mut [u64],
    axis: u64,
    kind: u64,
    depth: u64,
    width: u64,
    turn: u64,
) -> Result<(), Refusal>
    ensures { Makes (setup_row kind depth width turn) table.old axis table.new result }
{
    let setting = Setting {
        kind,
        depth,
        width,
        turn,
    };
    make(table, axis, |row| row_calls::setup::setup(row, setting))
}

// Four zero words, whatever the row held: LENGTH, AXIS.
pub fn erase(table: &mut [u64], axis: u64) -> Result<(), Refusal>
    ensures { Makes erase_row table.old axis table.new result }
{
    make(table, axis, |_| row_calls::setup::erase())
}

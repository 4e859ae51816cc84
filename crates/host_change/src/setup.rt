// Setup and erase.
ghost use Rattle.row_calls.specs.Calls.{setup_row, erase_row};
ghost use Rattle.host_change.specs.Making.{MakesToC};

use host_answers::answer::Answer;

// An axis set up in an empty row: LENGTH, AXIS, OCCUPIED, VALUE.
pub fn ubrenchip_setup(
    table: &mut [u64],
    axis: u64,
    kind: u64,
    depth: u64,
    width: u64,
    turn: u64,
) -> Answer
    ensures { MakesToC (setup_row kind depth width turn) table.old axis table.new result }
{
    Answer::from(table_change::setup::setup(table, axis, kind, depth, width, turn))
}

// Four zero words: LENGTH, AXIS.
pub fn ubrenchip_erase(table: &mut [u64], axis: u64) -> Answer
    ensures { MakesToC erase_row table.old axis table.new result }
{
    Answer::from(table_change::setup::erase(table, axis))
}

// Preset, arm and acknowledge.
ghost use Rattle.row_calls.specs.Calls.{preset_row, arm_row, acknowledge_row};
ghost use Rattle.host_change.specs.Making.{MakesToC};

use host_answers::answer::Answer;

// Another position: LENGTH, AXIS, BROKEN, EMPTY, VALUE.
pub fn ubrenchip_preset(table: &mut [u64], axis: u64, position: i64) -> Answer
    ensures { MakesToC (preset_row position) table.old axis table.new result }
{
    Answer::from(table_change::change::preset(table, axis, position))
}

// The next reference edge is to home: LENGTH, AXIS, BROKEN, EMPTY, KIND.
pub fn ubrenchip_arm(table: &mut [u64], axis: u64) -> Answer
    ensures { MakesToC arm_row table.old axis table.new result }
{
    Answer::from(table_change::change::arm(table, axis))
}

// Doubles and INDEX have been seen: LENGTH, AXIS, BROKEN, EMPTY, KIND.
pub fn ubrenchip_acknowledge(table: &mut [u64], axis: u64) -> Answer
    ensures { MakesToC acknowledge_row table.old axis table.new result }
{
    Answer::from(table_change::change::acknowledge(table, axis))
}

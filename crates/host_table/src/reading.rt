// A reading of a narrow counter.
ghost use Rattle.host_table.specs.Call.{ReadsToC};

use host_answers::answer::Answer;

// The position that a reading gives, stored and answered: LENGTH, AXIS, BROKEN, EMPTY, KIND, VALUE, HALF, RANGE.
pub fn ubrenchip_reading(table: &mut [u64], axis: u64, reading: u64) -> Answer
    ensures { ReadsToC reading table.old axis table.new result }
{
    Answer::from(table::reading::reading(table, axis, reading))
}

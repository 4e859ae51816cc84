// A port sample, and the calls on a table that name an axis.
ghost use Rattle.std.specs.Prelude.{◌≡◌};
ghost use Rattle.row_calls.specs.Calls.{setup_row, erase_row, preset_row, arm_row, acknowledge_row};
ghost use Rattle.row_saving.specs.Saving.{restore_row};
ghost use Rattle.table.specs.Call.{viewed_in, speed_in};
ghost use Rattle.host_answers.specs.Answer.{answer_speed, answer_view};
ghost use Rattle.host_port.specs.Port.{SamplesToC};
ghost use Rattle.host_change.specs.Making.{MakesToC};
ghost use Rattle.host_table.specs.Call.{ReadsToC, SavesToC};

use host_answers::answer::Answer;
use host_answers::speeds::SpeedAnswer;
use host_answers::view::ViewAnswer;
use host_port::SampledAnswer;

// One sample of every axis's lines: LENGTH.
#[unsafe(no_mangle)]
pub extern "C" fn ubrenchip_sample(table: &mut [u64], port: u64) -> SampledAnswer
    ensures { SamplesToC table.old port table.new result }
{
    host_port::ubrenchip_sample(table, port)
}

// An axis set up in an empty row: LENGTH, AXIS, OCCUPIED, VALUE.
#[unsafe(no_mangle)]
pub extern "C" fn ubrenchip_setup(
    table: &mut [u64],
    axis: u64,
    kind: u64,
    depth: u64,
    width: u64,
    turn: u64,
) -> Answer
    ensures { MakesToC (setup_row kind depth width turn) table.old axis table.new result }
{
    host_change::setup::ubrenchip_setup(table, axis, kind, depth, width, turn)
}

// Four zero words: LENGTH, AXIS.
#[unsafe(no_mangle)]
pub extern "C" fn ubrenchip_erase(table: &mut [u64], axis: u64) -> Answer
    ensures { MakesToC erase_row table.old axis table.new result }
{
    host_change::setup::ubrenchip_erase(table, axis)
}

// Another position: LENGTH, AXIS, BROKEN, EMPTY, VALUE.
#[unsafe(no_mangle)]
pub extern "C" fn ubrenchip_preset(table: &mut [u64], axis: u64, position: i64) -> Answer
    ensures { MakesToC (preset_row position) table.old axis table.new result }
{
    host_change::change::ubrenchip_preset(table, axis, position)
}

// The next reference edge is to home: LENGTH, AXIS, BROKEN, EMPTY, KIND.
#[unsafe(no_mangle)]
pub extern "C" fn ubrenchip_arm(table: &mut [u64], axis: u64) -> Answer
    ensures { MakesToC arm_row table.old axis table.new result }
{
    host_change::change::ubrenchip_arm(table, axis)
}

// Doubles and INDEX have been seen: LENGTH, AXIS, BROKEN, EMPTY, KIND.
#[unsafe(no_mangle)]
pub extern "C" fn ubrenchip_acknowledge(table: &mut [u64], axis: u64) -> Answer
    ensures { MakesToC acknowledge_row table.old axis table.new result }
{
    host_change::change::ubrenchip_acknowledge(table, axis)
}

// What an axis shows: LENGTH, AXIS, BROKEN, EMPTY.
#[unsafe(no_mangle)]
pub extern "C" fn ubrenchip_view(table: &[u64], axis: u64) -> ViewAnswer
    ensures { result ≡ answer_view (viewed_in table.now axis) }
{
    host_table::look::ubrenchip_view(table, axis)
}

// The position that a reading gives, stored and answered: LENGTH, AXIS, BROKEN, EMPTY, KIND, VALUE, HALF, RANGE.
#[unsafe(no_mangle)]
pub extern "C" fn ubrenchip_reading(table: &mut [u64], axis: u64, reading: u64) -> Answer
    ensures { ReadsToC reading table.old axis table.new result }
{
    host_table::reading::ubrenchip_reading(table, axis, reading)
}

// Speed by period, at a rate in samples a second: LENGTH, AXIS, BROKEN, EMPTY, KIND, VALUE, NO PERIOD.
#[unsafe(no_mangle)]
pub extern "C" fn ubrenchip_speed_by_period(table: &[u64], axis: u64, rate: u64) -> SpeedAnswer
    ensures { result ≡ answer_speed (speed_in rate table.now axis) }
{
    host_table::look::ubrenchip_speed_by_period(table, axis, rate)
}

// The axis's record at the front of a buffer: LENGTH, AXIS, BROKEN, EMPTY, ROOM.
#[unsafe(no_mangle)]
pub extern "C" fn ubrenchip_save(table: &[u64], axis: u64, buffer: &mut [u8]) -> Answer
    ensures { SavesToC table.now axis buffer.old buffer.new result }
{
    host_table::saving::ubrenchip_save(table, axis, buffer)
}

// The axis that a record says, in an empty row: LENGTH, AXIS, then the record's own checks in its own order, OCCUPIED.
#[unsafe(no_mangle)]
pub extern "C" fn ubrenchip_restore(table: &mut [u64], axis: u64, slice: &[u8]) -> Answer
    ensures { MakesToC (restore_row slice.now) table.old axis table.new result }
{
    host_table::saving::ubrenchip_restore(table, axis, slice)
}

// Widening, speed by count, and the tests of a record: the functions that need no table.
ghost use Rattle.std.specs.Prelude.{◌≡◌};
ghost use Rattle.reckon.specs.Widening.{widened};
ghost use Rattle.speed.specs.Speed.{speed_by_count};
ghost use Rattle.record.specs.Record.{tested_as};
ghost use Rattle.record_table.specs.TableRecord.{tested_either};
ghost use Rattle.host_answers.specs.Answer.{answer_to, answer_speed, answer_test};

use host_answers::answer::Answer;
use host_answers::speeds::SpeedAnswer;

// The position that a reading of a narrow counter says.
#[unsafe(no_mangle)]
pub extern "C" fn ubrenchip_widen(width: u64, position: i64, reading: u64) -> Answer
    ensures { result ≡ answer_to (widened width position reading) }
{
    host::reckoning::ubrenchip_widen(width, position, reading)
}

// The speed of a count difference, in thousandths of a count a second, with what it leaves.
#[unsafe(no_mangle)]
pub extern "C" fn ubrenchip_speed_by_count(difference: i64, samples: u64, rate: u64) -> SpeedAnswer
    ensures { result ≡ answer_speed (speed_by_count difference samples rate) }
{
    host::reckoning::ubrenchip_speed_by_count(difference, samples, rate)
}

// Whether a slice is a saved record of one axis, or why it is none.
#[unsafe(no_mangle)]
pub extern "C" fn ubrenchip_test_record(slice: &[u8]) -> Answer
    ensures { result ≡ answer_test (tested_as slice.now) }
{
    host::records::ubrenchip_test_record(slice)
}

// Whether a slice is a record of layout 1 or of layout 2, or why it is neither.
#[unsafe(no_mangle)]
pub extern "C" fn ubrenchip_test_any(slice: &[u8]) -> Answer
    ensures { result ≡ answer_test (tested_either slice.now) }
{
    host_record::records::ubrenchip_test_any(slice)
}

// View, and speed by period: the calls that only look.
ghost use Rattle.std.specs.Prelude.{◌≡◌};
ghost use Rattle.table.specs.Call.{viewed_in, speed_in};
ghost use Rattle.host_answers.specs.Answer.{answer_speed, answer_view};

use host_answers::speeds::SpeedAnswer;
use host_answers::view::ViewAnswer;

// What an axis shows: LENGTH, AXIS, BROKEN, EMPTY.
pub fn ubrenchip_view(table: &[u64], axis: u64) -> ViewAnswer
    ensures { result ≡ answer_view (viewed_in table.now axis) }
{
    ViewAnswer::from(table::look::view(table, axis))
}

// Speed by period, at a rate in samples a second: LENGTH, AXIS, BROKEN, EMPTY, KIND, VALUE, NO PERIOD.
pub fn ubrenchip_speed_by_period(table: &[u64], axis: u64, rate: u64) -> SpeedAnswer
    ensures { result ≡ answer_speed (speed_in rate table.now axis) }
{
    SpeedAnswer::from(table::look::speed(table, axis, rate))
}

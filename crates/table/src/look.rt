// View, and speed by period: the calls that only look.
ghost use Rattle.std.specs.Prelude.{◌≡◌};
ghost use Rattle.table.specs.Call.{viewed_in, speed_in};

use refusal::Refusal;
use row_view::answer::View;
use speed::Quotient;
use table_rows::locate;

// What an axis shows: LENGTH, AXIS, BROKEN, EMPTY.
pub fn view(table: &[u64], axis: u64) -> Result<View, Refusal>
    ensures { result ≡ viewed_in table.now axis }
{
    row_view::view(locate(table, axis)?)
}

// Speed by period, at a rate in samples a second: LENGTH, AXIS, BROKEN, EMPTY, KIND, VALUE, NO PERIOD.
pub fn speed(table: &[u64], axis: u64, rate: u64) -> Result<Quotient, Refusal>
    ensures { result ≡ speed_in rate table.now axis }
{
    row_speed::speed(locate(table, axis)?, rate)
}

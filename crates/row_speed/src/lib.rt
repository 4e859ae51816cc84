// Speed by period.
#![tactic(auto)]

ghost use Rattle.std.specs.Prelude.{◌≡◌, max};
ghost use Rattle.row_speed.specs.Speed.{sign_of, speed_of, speed_row};

use axis::row::{Pace, Row};
use refusal::Refusal;
use row_calls::in_use::sampled;
use speed::Quotient;

// One count, with the sign of a direction.
fn sign(direction: u8) -> i64
    ensures { result ≡ sign_of direction }
{
    if direction == 2 { -1 } else { 1 }
}

// The larger of period and age.
fn larger(period: u32, age: u32) -> u64
    ensures { result ≡ max period age }
{
    u64::from(period.max(age))
}

// The speed of a pace: VALUE, then NO PERIOD.
fn by_period(p: Pace, rate: u64) -> Result<Quotient, Refusal>
    ensures { result ≡ speed_of rate p }
{
    if !speed::is_rate(rate) {
        return Err(Refusal::Value);
    }
    if p.period == 0 {
        return Err(Refusal::NoPeriod);
    }
    speed::by_count(sign(p.direction), larger(p.period, p.age), rate)
}

// Speed by period, at a rate in samples a second.
pub fn speed(r: Row, rate: u64) -> Result<Quotient, Refusal>
    ensures { result ≡ speed_row rate r }
{
    by_period(sampled(r)?.axis.pace, rate)
}

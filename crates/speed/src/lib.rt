// Division to the nearest whole number with what it leaves, and speed by count, on plain numbers, with no table.
#![tactic(auto)]

ghost use Rattle.std.specs.Prelude.{◌≡◌, ◌<◌, ◌^◌, nat_abs};
ghost use Rattle.speed.specs.Rounding.{away_from, rounded, divided};
ghost use Rattle.speed.specs.Speed.{good_count, good_samples, good_rate, speed_by_count};

use refusal::Refusal;

// A number to the nearest, what it leaves, and what was divided by: number times divisor plus remainder is exact.
#[derive(Clone, Copy, Debug, PartialEq, Eq)]
pub struct Quotient {
    pub number: i64,
    pub remainder: i64,
    pub divisor: u64,
}

// Whether a count difference is within its limits.
#[tactic(auto, unfolding(crate::specs::Speed::good_count))]
fn is_count(difference: i64) -> bool
    ensures { result ≡ good_count difference }
{
    difference.unsigned_abs() < 0x8000_0000
}

// Whether a number of samples is within its limits.
fn is_samples(samples: u64) -> bool
    ensures { result ≡ good_samples samples }
{
    (1..=0xffff_ffff).contains(&samples)
}

// Whether a rate, in samples a second, is within its limits.
pub fn is_rate(rate: u64) -> bool
    ensures { result ≡ good_rate rate }
{
    (1..=1_000_000).contains(&rate)
}

// The divisor, on the side of zero where n lies.
#[tactic(auto, unfolding(crate::specs::Rounding::away_from))]
fn away(n: i64, divisor: u64) -> i64
    requires { divisor < 2 ^ 32 }
    ensures { result ≡ away_from n divisor }
{
    let t = divisor as i64;
    if n < 0 { -t } else { t }
}

// n over the divisor, to the nearest whole number, halves away from zero.
fn to_nearest(n: i64, divisor: u64) -> i64
    requires { (nat_abs n < 2 ^ 61) × (0 < divisor) × (divisor < 2 ^ 32) }
    ensures { result ≡ rounded n divisor }
{
    let t = divisor as i64;
    (2 * n + away(n, divisor)) / (2 * t)
}

// n over the divisor, to the nearest whole number, with what that leaves of n.
fn divide(n: i64, divisor: u64) -> Quotient
    requires { (nat_abs n < 2 ^ 61) × (0 < divisor) × (divisor < 2 ^ 32) }
    ensures { result ≡ divided n divisor }
{
    let number = to_nearest(n, divisor);
    let t = divisor as i64;
    let remainder = n - number * t;
    Quotient {
        number,
        remainder,
        divisor,
    }
}

// The speed of a count difference over a number of samples, in thousandths of a count a second.
#[tactic(auto, unfolding(crate::specs::Speed::speed_by_count, crate::specs::Speed::good_speed), using(crate::proofs::SpeedLaws::limits, crate::proofs::SpeedLaws::product_small))]
pub fn by_count(difference: i64, samples: u64, rate: u64) -> Result<Quotient, Refusal>
    ensures { result ≡ speed_by_count difference samples rate }
{
    if !(is_count(difference) & is_samples(samples) & is_rate(rate)) {
        return Err(Refusal::Value);
    }
    let f = (1000 * rate) as i64;
    Ok(divide(difference * f, samples))
}

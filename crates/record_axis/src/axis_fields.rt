// The fields of one axis, 02 to 06, read at any place of a slice as plain numbers; of their limits it looks at the kind's alone.
ghost use Rattle.std.specs.Prelude.{◌≡◌};
ghost use Rattle.record_axis.specs.AxisFields.{counter_at, sampled_at, known_kind, axis_at};

use crate::tags::{DEPTH, KIND, POSITION, TURN, WIDTH};
use axis::config::Config;
use axis::kind::Kind;
use refusal::Refusal;
use tagged::field::read_field;

// A counter's fields after the position.
#[tactic(auto, unfolding(crate::specs::AxisFields::counter_at), using(tagged::proofs::FieldLaws::field_below))]
fn read_counter(
    slice: &[u8],
    at: usize,
    kind: u8,
    bits: u64,
) -> Result<(Config, u64, usize), Refusal>
    ensures { result ≡ counter_at slice.now at kind bits }
{
    let Some((width, at)) = read_field(slice, at, WIDTH, 1) else {
        return Err(Refusal::Record);
    };
    let config = Config {
        kind,
        width: width as u8,
        ..Config::default()
    };
    Ok((config, bits, at))
}

// A sampled axis's fields after the position.
#[tactic(auto, unfolding(crate::specs::AxisFields::sampled_at), using(tagged::proofs::FieldLaws::field_below))]
fn read_sampled(
    slice: &[u8],
    at: usize,
    kind: u8,
    bits: u64,
) -> Result<(Config, u64, usize), Refusal>
    ensures { result ≡ sampled_at slice.now at kind bits }
{
    let Some((depth, at)) = read_field(slice, at, DEPTH, 1) else {
        return Err(Refusal::Record);
    };
    let Some((turn, at)) = read_field(slice, at, TURN, 4) else {
        return Err(Refusal::Record);
    };
    let config = Config {
        kind,
        depth: depth as u8,
        turn: turn as u32,
        ..Config::default()
    };
    Ok((config, bits, at))
}

// Whether a number is one of the four kinds.
pub fn is_known(kind: u64) -> bool
    ensures { result ≡ known_kind kind }
{
    Kind::is_sampled(kind) | Kind::is_counter(kind)
}

// The fields of an axis from at on, as a configuration and the 64 bits of the position, and where the next field begins; or why they are
// refused: the first check that fails.
#[tactic(auto, unfolding(crate::specs::AxisFields::axis_at))]
pub fn read_axis(slice: &[u8], at: usize) -> Result<(Config, u64, usize), Refusal>
    ensures { result ≡ axis_at slice.now at }
{
    let Some((kind, at)) = read_field(slice, at, KIND, 1) else {
        return Err(Refusal::Record);
    };
    if !is_known(kind) {
        return Err(Refusal::Value);
    }
    let Some((bits, at)) = read_field(slice, at, POSITION, 8) else {
        return Err(Refusal::Record);
    };
    if Kind::is_counter(kind) {
        read_counter(slice, at, kind as u8, bits)
    } else {
        read_sampled(slice, at, kind as u8, bits)
    }
}

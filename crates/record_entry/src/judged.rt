// The fields of one axis, 02 to 06, read at any place: after each field its value is judged, before the next is looked at.
ghost use Rattle.std.specs.Prelude.{◌≡◌};
ghost use Rattle.record_entry.specs.Entry.{counter_from, sampled_from, saved_at};

use axis::config::{Config, Setting};
use axis::kind::Kind;
use position::in_range;
use record_axis::axis_fields::is_known;
use record_axis::saved::Saved;
use record_axis::tags::{DEPTH, KIND, POSITION, TURN, WIDTH};
use refusal::Refusal;
use tagged::field::read_field;
use tagged::twos::of_bits;

// A counter's fields after the position.
#[tactic(auto, unfolding(crate::specs::Entry::counter_from))]
fn read_counter(
    slice: &[u8],
    at: usize,
    kind: u64,
    position: i64,
) -> Result<(Saved, usize), Refusal>
    ensures { result ≡ counter_from slice.now at kind position }
{
    let Some((width, at)) = read_field(slice, at, WIDTH, 1) else {
        return Err(Refusal::Record);
    };
    let setting = Setting {
        kind,
        width,
        ..Setting::default()
    };
    let config = Config::try_from(setting).map_err(|_| Refusal::Value)?;
    Ok((Saved { config, position }, at))
}

// A sampled axis's fields after the position; the counts per turn need no test, since four bytes hold none outside their limits.
#[tactic(auto, unfolding(crate::specs::Entry::sampled_from), using(tagged::proofs::FieldLaws::field_below, crate::proofs::EntryLaws::depth_good))]
fn read_sampled(
    slice: &[u8],
    at: usize,
    kind: u64,
    position: i64,
) -> Result<(Saved, usize), Refusal>
    ensures { result ≡ sampled_from slice.now at kind position }
{
    let Some((depth, at)) = read_field(slice, at, DEPTH, 1) else {
        return Err(Refusal::Record);
    };
    let setting = Setting {
        kind,
        depth,
        ..Setting::default()
    };
    let config = Config::try_from(setting).map_err(|_| Refusal::Value)?;
    let Some((turn, at)) = read_field(slice, at, TURN, 4) else {
        return Err(Refusal::Record);
    };
    let config = Config {
        turn: turn as u32,
        ..config
    };
    Ok((Saved { config, position }, at))
}

// The fields of an axis from at on, and where the next field begins; or why they are refused: the first check that fails.
#[tactic(auto, unfolding(crate::specs::Entry::saved_at))]
pub fn read_saved(slice: &[u8], at: usize) -> Result<(Saved, usize), Refusal>
    ensures { result ≡ saved_at slice.now at }
{
    let Some((kind, at)) = read_field(slice, at, KIND, 1) else {
        return Err(Refusal::Record);
    };
    if !is_known(kind) {
        return Err(Refusal::Value);
    }
    let Some((bits, at)) = read_field(slice, at, POSITION, 8) else {
        return Err(Refusal::Record);
    };
    let position = of_bits(bits);
    if !in_range(position) {
        return Err(Refusal::Value);
    }
    if Kind::is_counter(kind) {
        read_counter(slice, at, kind, position)
    } else {
        read_sampled(slice, at, kind, position)
    }
}

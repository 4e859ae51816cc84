// A row opened: what it is, and what it unpacks to.
#![tactic(auto)]

ghost use Rattle.std.specs.Prelude.{◌≡◌, false};
ghost use Rattle.axis.specs.Row.{axis_of};
ghost use Rattle.axis_sound.specs.Sound.{is_sampled, status_of, low_row};
ghost use Rattle.axis_open.specs.Open.{broken_by};

use axis::row::{Axis, Row};
use axis_packing::unpack;
use axis_sound::{Status, is_counter, is_empty, is_sampled};

// A row opened: what it is, and the axis that it holds.
#[derive(Clone, Copy, Debug, PartialEq, Eq)]
pub struct Opened {
    pub status: Status,
    pub axis: Axis,
}

// What a row is, by the first test that it passes; a is what it unpacks to.
#[tactic(auto, unfolding(axis_sound::specs::Sound::status_of))]
fn classify(r: Row, a: Axis) -> Status
    requires { a ≡ axis_of (low_row r) }
    ensures { result ≡ status_of r }
{
    if is_empty(r) {
        Status::Empty
    } else if is_sampled(r, a) {
        Status::Sampled
    } else if is_counter(r) {
        Status::Counter
    } else {
        Status::Broken
    }
}

// Whether a row that is not sampled is broken.
#[tactic(auto, using(crate::proofs::OpenLaws::broken_by_lem))]
pub fn is_broken(r: Row) -> bool
    requires { is_sampled r ≡ false }
    ensures { result ≡ broken_by (status_of r) }
{
    !(is_empty(r) | is_counter(r))
}

// A row with the low 32 bits of word 3.
fn low(r: Row) -> Row
    ensures { result ≡ low_row r }
{
    Row {
        w3: fields::field(r.w3, 0, 32),
        ..r
    }
}

// What a row unpacks to. A broken row's word 3 is cut to 32 bits.
pub fn axis_in(r: Row) -> Axis
    ensures { result ≡ axis_of (low_row r) }
{
    unpack::unpack(low(r))
}

// What a row is, and what it unpacks to.
pub fn open(r: Row) -> Opened
    ensures { (result.status ≡ status_of r) × (result.axis ≡ axis_of (low_row r)) }
{
    let axis = axis_in(r);
    Opened {
        status: classify(r, axis),
        axis,
    }
}

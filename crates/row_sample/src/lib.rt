// A port sample on one row.
#![tactic(auto)]

ghost use Rattle.std.specs.Prelude.{◌≡◌};
ghost use Rattle.axis_sound.specs.Sound.{SampledAxis};
ghost use Rattle.axis_filter.specs.Lines.{raw_of};
ghost use Rattle.axis_sample.specs.Step.{step_axis};
ghost use Rattle.row_sample.specs.Sample.{packed, kept, step_row};

use axis::row::{Axis, Row};
use axis_filter::raw_of;
use axis_open::{axis_in, is_broken};
use axis_packing::pack::pack;
use axis_sample::step::step_axis;
use axis_sound::is_sampled;

// The row after a sample, and its bits of the answer.
#[derive(Clone, Copy, Debug, PartialEq, Eq)]
pub struct SteppedRow {
    pub row: Row,
    pub double: bool,
    pub index: bool,
    pub broken: bool,
}

// A sampled axis after a sample, packed.
fn step_sampled(x: Axis, nibble: u64) -> SteppedRow
    requires { SampledAxis x }
    ensures { result ≡ packed (step_axis x (raw_of nibble)) }
{
    let stepped = step_axis(x, raw_of(nibble));
    SteppedRow {
        row: pack(stepped.axis),
        double: stepped.double,
        index: stepped.index,
        broken: false,
    }
}

// A row that a sample leaves as it was.
fn keep(r: Row, broken: bool) -> SteppedRow
    ensures { result ≡ kept r broken }
{
    SteppedRow {
        row: r,
        double: false,
        index: false,
        broken,
    }
}

// A row after a sample: a sampled one steps, any other stays, and only a broken one is marked.
pub fn step_row(r: Row, nibble: u64) -> SteppedRow
    ensures { result ≡ step_row r nibble }
{
    let axis = axis_in(r);
    if is_sampled(r, axis) {
        step_sampled(axis, nibble)
    } else {
        keep(r, is_broken(r))
    }
}

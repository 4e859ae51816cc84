// A sample on an axis.
ghost use Rattle.std.specs.Prelude.{◌≡◌, true, false};
ghost use Rattle.axis_filter.specs.Filter.{Short};
ghost use Rattle.axis_settle.specs.Lines.{lines_of};
ghost use Rattle.axis_sample.specs.Step.{outcome, step_axis};

use axis::row::{Axis, Flags};
use axis_decode::{is_double, move_between};
use axis_filter::filter::filter;
use axis_filter::{Line, Lines, Raw};
use axis_index::edge_between;
use axis_settle::settled;

// The axis after a sample, and its bits of the answer.
#[derive(Clone, Copy, Debug, PartialEq, Eq)]
pub struct Stepped {
    pub axis: Axis,
    pub double: bool,
    pub index: bool,
}

// An axis that is not primed, after a sample: the levels are taken as they are.
#[tactic(auto, unfolding(crate::specs::Step::outcome, crate::specs::Step::primed_by))]
fn prime(x: Axis, s: Raw) -> Stepped
    ensures { result ≡ outcome false x s }
{
    Stepped {
        axis: Axis {
            flags: Flags {
                primed: true,
                ..x.flags
            },
            levels: [s.a, s.b, s.z],
            runs: [0; 3],
            ..x
        },
        double: false,
        index: false,
    }
}

// The three lines of an axis.
fn lines_of(x: Axis) -> Lines
    ensures { result ≡ lines_of x }
{
    let [a, b, z] = x.levels;
    let [run_a, run_b, run_z] = x.runs;
    Lines {
        a: Line {
            level: a,
            run: run_a,
        },
        b: Line {
            level: b,
            run: run_b,
        },
        z: Line {
            level: z,
            run: run_z,
        },
    }
}

// A primed axis after a sample.
#[tactic(auto, using(crate::proofs::StepLaws::lines_are), unfolding(crate::specs::Step::outcome, axis_settle::specs::Lines::move_to, axis_settle::specs::Lines::edge_to, axis_settle::specs::Lines::line, axis_settle::specs::Lines::place_of, axis_filter::specs::Lines::three))]
fn advance(x: Axis, s: Raw) -> Stepped
    requires { Short x.config.depth (lines_of x) }
    ensures { result ≡ outcome true x s }
{
    let [a, b, z] = x.levels;
    let n = filter(x.config.depth, lines_of(x), s);
    let m = move_between(x.config.kind, a, b, n.a.level, n.b.level);
    let e = edge_between(a, b, z, n.a.level, n.b.level, n.z.level);
    Stepped {
        axis: settled(x, n, m, e),
        double: is_double(m),
        index: e.is_some(),
    }
}

// An axis after a sample.
#[tactic(auto, unfolding(crate::specs::Step::step_axis))]
pub fn step_axis(x: Axis, s: Raw) -> Stepped
    requires { Short x.config.depth (lines_of x) }
    ensures { result ≡ step_axis x s }
{
    if x.flags.primed {
        advance(x, s)
    } else {
        prime(x, s)
    }
}

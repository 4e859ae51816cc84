// What the filtered lines of a sample make of a primed axis: count, age and period, index.
#![tactic(auto)]

ghost use Rattle.std.specs.Prelude.{◌≡◌, true};
ghost use Rattle.axis_filter.specs.Lines.{three};
ghost use Rattle.axis_settle.specs.Lines.{move_to, edge_to};
ghost use Rattle.axis_settle.specs.Settle.{at_edge, with_entry, settle};

use axis::row::{Axis, Flags};
use axis_count::{count, count_doubles};
use axis_decode::Move;
use axis_filter::Lines;
use axis_index::{Way, check, home};
use axis_pace::paced;

// An axis at a reference edge: homed where it is armed, and else checked where it is homed.
#[tactic(auto, unfolding(crate::specs::Settle::at_edge))]
fn home_or_check(x: Axis) -> Axis
    ensures { result ≡ at_edge true x }
{
    let was = x.flags;
    Axis {
        word: home(was.armed, x.word),
        flags: Flags {
            armed: false,
            homed: was.homed | was.armed,
            range: was.range & !was.armed,
            index: check(was.index, !was.armed & was.homed, x.config.turn, x.word),
            ..was
        },
        ..x
    }
}

// An axis at one, or at none.
#[tactic(auto, using(crate::proofs::SettleLaws::no_edge))]
fn at_edge(edge: bool, x: Axis) -> Axis
    ensures { result ≡ at_edge edge x }
{
    if edge { home_or_check(x) } else { x }
}

// An axis whose entry is m and whose lines become n.
#[tactic(auto, unfolding(crate::specs::Settle::with_entry, axis_filter::specs::Lines::three))]
fn with_entry(m: Move, n: Lines, x: Axis) -> Axis
    ensures { result ≡ with_entry m (three n) x }
{
    let counted = count(m, x.word, x.flags.range);
    Axis {
        word: counted.word,
        config: x.config,
        flags: Flags {
            primed: true,
            range: counted.range,
            ..x.flags
        },
        levels: [n.a.level, n.b.level, n.z.level],
        runs: [n.a.run, n.b.run, n.z.run],
        doubles: count_doubles(m, x.doubles),
        pace: paced(m, x.pace),
    }
}

// A primed axis whose lines become n, where m is the entry and e the reference edge.
#[tactic(auto, unfolding(crate::specs::Settle::settle))]
pub fn settled(x: Axis, n: Lines, m: Move, e: Option<Way>) -> Axis
    requires { (m ≡ move_to x (three n)) × (e ≡ edge_to x (three n)) }
    ensures { result ≡ settle x (three n) }
{
    let before = at_edge(e == Some(Way::Backward), x);
    at_edge(e == Some(Way::Forward), with_entry(m, n, before))
}

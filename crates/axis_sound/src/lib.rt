// Which rows are sound.
#![tactic(auto)]

ghost use Rattle.std.specs.Prelude.{◌≡◌, not, ◌&&◌, ◌||◌, eqb, ltb};
ghost use Rattle.fields.specs.Field.{field_of};
ghost use Rattle.axis.specs.Config.{sampled_config};
ghost use Rattle.axis.specs.Row.{axis_of};
ghost use Rattle.axis_sound.specs.Sound.{is_empty, is_plain, is_short, is_paced, is_sampled, is_counter, low_row};

use axis::config::{Setting, TURN_END};
use axis::row::{Axis, Pace, Row};

// The longest period.
const LONGEST: u32 = 0xffff_fffe;

// What a row is.
#[derive(Clone, Copy, Debug, PartialEq, Eq)]
pub enum Status {
    Empty,
    Sampled,
    Counter,
    Broken,
}

// Four zero words.
pub fn is_empty(r: Row) -> bool
    ensures { result ≡ is_empty r }
{
    r == Row::default()
}

// What every sound row but an empty one has: a position in word 0, 0 in the bits without a name, and word 3 below 2^32.
fn is_plain(r: Row) -> bool
    ensures { result ≡ is_plain r }
{
    let low = fields::field(r.w1, 31, 1);
    let high = fields::field(r.w1, 50, 14);
    position::is_word(r.w0) & (low == 0) & (high == 0) & (r.w3 < TURN_END)
}

// An axis is primed, or it waits: bits 16 to 63 of its row's word 1, which w1 is, are 0, and so are age and period.
fn is_ready(w1: u64, a: Axis) -> bool
    ensures { result ≡ (a.flags.primed || (eqb (field_of 16 48 w1) 0 && eqb a.pace.age 0 && eqb a.pace.period 0)) }
{
    a.flags.primed || (fields::field(w1, 16, 48) == 0) & (a.pace.age == 0) & (a.pace.period == 0)
}

// INDEX is set only where there are counts per turn.
fn is_indexed(a: Axis) -> bool
    ensures { result ≡ (not a.flags.index || ltb 0 a.config.turn) }
{
    !a.flags.index || 0 < a.config.turn
}

// Each run is below the depth.
fn is_short(a: Axis) -> bool
    ensures { result ≡ is_short a }
{
    a.runs.iter().all(|&run| run < a.config.depth)
}

// Direction and period fit each other.
fn is_paced(p: Pace) -> bool
    ensures { result ≡ is_paced p }
{
    if p.direction == 0 {
        p.period == 0
    } else {
        (p.direction != 3) & (p.period <= LONGEST)
    }
}

// What a sampled row has whatever its axis did last: a plain row, a sampled configuration, short runs, and ARMED and HOMED not both.
fn is_formed(r: Row, a: Axis) -> bool
    ensures { result ≡ is_plain r && sampled_config a.config.kind a.config.depth a.config.width r.w3
        && (is_short a && not (a.flags.armed && a.flags.homed)) }
{
    let apart = !(a.flags.armed & a.flags.homed);
    let plain = is_plain(r);
    let setting = Setting {
        turn: r.w3,
        ..Setting::from(a.config)
    };
    plain & setting.is_sampled() & (is_short(a) & apart)
}

// A sampled row, of which a is what it unpacks to: its axis, where word 3 is below 2^32.
pub fn is_sampled(r: Row, a: Axis) -> bool
    requires { a ≡ axis_of (low_row r) }
    ensures { result ≡ is_sampled r }
{
    is_formed(r, a) && is_paced(a.pace) && is_indexed(a) && is_ready(r.w1, a)
}

// A counter row: past its configuration nothing is set.
pub fn is_counter(r: Row) -> bool
    ensures { result ≡ is_counter r }
{
    let plain = is_plain(r);
    let setting = Setting {
        kind: fields::field(r.w1, 0, 4),
        depth: fields::field(r.w1, 4, 4),
        width: fields::field(r.w1, 8, 6),
        turn: r.w3,
    };
    let rest = fields::field(r.w1, 14, 50);
    plain & setting.is_counter() & (rest == 0) & (r.w2 == 0)
}

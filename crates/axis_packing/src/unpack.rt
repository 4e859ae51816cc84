// From a row to its axis: each field by a shift and a mask.
ghost use Rattle.std.specs.Prelude.{◌≡◌, ◌<◌, ◌^◌, [], ◌∷◌};
ghost use Rattle.fields.specs.Field.{field_of, flag_of};
ghost use Rattle.axis.specs.Row.{config_in, flags_in, pace_in, axis_of, SameConfig, SameFlags, SamePace};

use axis::config::Config;
use axis::row::{Axis, Flags, Pace, Row};

// The configuration: bits 0 to 13 of word 1, and word 3.
fn config_of(r: Row) -> Config
    requires { r.w3 < 2 ^ 32 }
    ensures { SameConfig result (config_in r) }
{
    Config {
        kind: fields::byte(r.w1, 0, 4),
        depth: fields::byte(r.w1, 4, 4),
        width: fields::byte(r.w1, 8, 6),
        turn: r.w3 as u32,
    }
}

// Bits 14 to 18.
fn flags_of(w: u64) -> Flags
    ensures { SameFlags result (flags_in w) }
{
    Flags {
        primed: fields::flag(w, 14),
        armed: fields::flag(w, 15),
        homed: fields::flag(w, 16),
        range: fields::flag(w, 17),
        index: fields::flag(w, 18),
    }
}

// Bits 19 to 21.
fn levels_of(w: u64) -> [bool; 3]
    ensures { result ≡ flag_of 19 w ∷ flag_of 20 w ∷ flag_of 21 w ∷ [] }
{
    [
        fields::flag(w, 19),
        fields::flag(w, 20),
        fields::flag(w, 21),
    ]
}

// Bits 22 to 30.
fn runs_of(w: u64) -> [u8; 3]
    ensures { result ≡ field_of 22 3 w ∷ field_of 25 3 w ∷ field_of 28 3 w ∷ [] }
{
    [
        fields::byte(w, 22, 3),
        fields::byte(w, 25, 3),
        fields::byte(w, 28, 3),
    ]
}

// Bits 48 and 49 of word 1, and word 2.
fn pace_of(r: Row) -> Pace
    ensures { SamePace result (pace_in r) }
{
    Pace {
        direction: fields::byte(r.w1, 48, 2),
        age: fields::field(r.w2, 0, 32) as u32,
        period: fields::field(r.w2, 32, 32) as u32,
    }
}

// The axis of a row. A sound row has word 3 below 2^32.
pub fn unpack(r: Row) -> Axis
    requires { r.w3 < 2 ^ 32 }
    ensures { result ≡ axis_of r }
{
    Axis {
        word: r.w0,
        config: config_of(r),
        flags: flags_of(r.w1),
        levels: levels_of(r.w1),
        runs: runs_of(r.w1),
        doubles: fields::field(r.w1, 32, 16) as u16,
        pace: pace_of(r),
    }
}

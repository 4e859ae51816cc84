// From an axis to its row: each field put in its place.
ghost use Rattle.std.specs.Prelude.{◌≡◌, ◌+◌, ◌*◌, ◌<◌, ◌^◌, false, get_or};
ghost use Rattle.fields.specs.Field.{bit_of};
ghost use Rattle.axis.specs.Row.{word1_of, word2_of, row_of, ConfigFits, Narrow};

use axis::config::Config;
use axis::row::{Axis, Flags, Row};

// Kind, depth and width: bits 0 to 13.
fn config_word(c: Config) -> u64
    requires { ConfigFits c }
    ensures { result ≡ c.kind + c.depth * 2 ^ 4 + c.width * 2 ^ 8 }
{
    fields::put(
        fields::put(u64::from(c.kind), 4, u64::from(c.depth)),
        8,
        u64::from(c.width),
    )
}

// The five flags, from bit 0 on.
fn flags_word(f: Flags) -> u64
    ensures { (result ≡ bit_of f.primed + bit_of f.armed * 2 ^ 1 + bit_of f.homed * 2 ^ 2
        + bit_of f.range * 2 ^ 3 + bit_of f.index * 2 ^ 4) × (result < 2 ^ 5) }
{
    let low2 = fields::put(fields::bit(f.primed), 1, fields::bit(f.armed));
    let low3 = fields::put(low2, 2, fields::bit(f.homed));
    let low4 = fields::put(low3, 3, fields::bit(f.range));
    fields::put(low4, 4, fields::bit(f.index))
}

// The three filtered levels, from bit 0 on.
fn levels_word(l: [bool; 3]) -> u64
    ensures { (result ≡ bit_of (get_or l 0 false) + bit_of (get_or l 1 false) * 2 ^ 1 + bit_of (get_or l 2 false) * 2 ^ 2) × (result < 2 ^ 3) }
{
    let low2 = fields::put(fields::bit(l[0]), 1, fields::bit(l[1]));
    fields::put(low2, 2, fields::bit(l[2]))
}

// The three runs, from bit 0 on.
fn runs_word(r: [u8; 3]) -> u64
    requires { (get_or r 0 0 < 2 ^ 3) × (get_or r 1 0 < 2 ^ 3) × (get_or r 2 0 < 2 ^ 3) }
    ensures { result ≡ get_or r 0 0 + get_or r 1 0 * 2 ^ 3 + get_or r 2 0 * 2 ^ 6 }
{
    fields::put(
        fields::put(u64::from(r[0]), 3, u64::from(r[1])),
        6,
        u64::from(r[2]),
    )
}

// Word 1, put together from bit 0 up.
fn word1(a: Axis) -> u64
    requires { Narrow a }
    ensures { result ≡ word1_of a }
{
    let low14 = config_word(a.config);
    let low19 = fields::put(low14, 14, flags_word(a.flags));
    let low22 = fields::put(low19, 19, levels_word(a.levels));
    let low31 = fields::put(low22, 22, runs_word(a.runs));
    let low48 = fields::put(low31, 32, u64::from(a.doubles));
    fields::put(low48, 48, u64::from(a.pace.direction))
}

// Word 2: age, then period.
fn word2(a: Axis) -> u64
    ensures { result ≡ word2_of a }
{
    fields::put(u64::from(a.pace.age), 32, u64::from(a.pace.period))
}

// The row of an axis whose fields are within their widths.
pub fn pack(a: Axis) -> Row
    requires { Narrow a }
    ensures { result ≡ row_of a }
{
    Row {
        w0: a.word,
        w1: word1(a),
        w2: word2(a),
        w3: u64::from(a.config.turn),
    }
}

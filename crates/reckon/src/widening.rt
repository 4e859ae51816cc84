// What a reading of a narrow counter says of the position.
ghost use Rattle.std.specs.Prelude.{◌≡◌, ◌≤◌, ◌<◌, ◌^◌};
ghost use Rattle.position.specs.Position.{position_of};
ghost use Rattle.reckon.specs.Widening.{good_width, or_range, nearest_to, widened, ahead_of};

use refusal::Refusal;

// Whether a counter may have this many bits.
fn is_width(width: u64) -> bool
    ensures { result ≡ good_width width }
{
    (2..=32).contains(&width)
}

// The position of a word, or RANGE.
#[tactic(auto, unfolding(crate::specs::Widening::or_range), using(crate::proofs::WideningLaws::word_range))]
fn or_range(word: u64) -> Result<i64, Refusal>
    ensures { result ≡ or_range (position_of word) }
{
    if position::is_word(word) {
        Ok(position::at_word(word))
    } else {
        Err(Refusal::Range)
    }
}

// The position nearest that of a word for a reading, which lies d ahead of the word in one turn.
#[tactic(auto, using(crate::proofs::WideningLaws::at_half, crate::proofs::WideningLaws::when_below, crate::proofs::WideningLaws::when_outside, crate::proofs::WideningLaws::when_above))]
fn nearest(turn: u64, word: u64, reading: u64) -> Result<i64, Refusal>
    requires { (reading < turn) × (turn ≤ 2 ^ 32) × (word < 2 ^ 63) }
    ensures { result ≡ nearest_to turn (position_of word) (ahead_of turn word reading) }
{
    let d = (reading + (turn - word % turn)) % turn;
    if 2 * d < turn {
        return or_range(word + d);
    }
    if 2 * d == turn {
        return Err(Refusal::Half);
    }
    if word + d < turn {
        return Err(Refusal::Range);
    }
    or_range(word + d - turn)
}

// The position that a reading of a counter of `width` bits says, where the last one known is `position`.
pub fn widen(width: u64, position: i64, reading: u64) -> Result<i64, Refusal>
    ensures { result ≡ widened width position reading }
{
    if !(is_width(width) & position::in_range(position)) {
        return Err(Refusal::Value);
    }
    let turn = 1u64 << width;
    if turn <= reading {
        return Err(Refusal::Value);
    }
    nearest(turn, position::word_of(position), reading)
}

// A position, and the word of a row that holds it.
#![tactic(auto)]

ghost use Rattle.std.specs.Prelude.{◌≡◌, true};
ghost use Rattle.position.specs.Position.{in_range, is_word, Word, word_of, position_of};

// The word of the first position.
pub const FIRST: u64 = 1;

// The word of position 0.
pub const ORIGIN: u64 = 0x4000_0000_0000_0000;

// The word of the last position.
pub const LAST: u64 = 0x7fff_ffff_ffff_ffff;

const MIDDLE: i64 = ORIGIN as i64;

const LEAST: i64 = 1 - MIDDLE;

// Whether a number is a position.
pub fn in_range(position: i64) -> bool
    ensures { result ≡ in_range position }
{
    (LEAST..MIDDLE).contains(&position)
}

// Whether a word holds a position.
pub fn is_word(word: u64) -> bool
    ensures { result ≡ is_word word }
{
    (FIRST..=LAST).contains(&word)
}

// The word that holds a position.
pub fn word_of(position: i64) -> u64
    requires { in_range position ≡ true }
    ensures { result ≡ word_of position }
{
    (position + MIDDLE) as u64
}

// The position that a word holds.
pub fn at_word(word: u64) -> i64
    requires { Word word }
    ensures { result ≡ position_of word }
{
    (word as i64) - MIDDLE
}

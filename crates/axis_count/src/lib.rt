// Position, RANGE and doubles after an entry.
#![tactic(auto)]

ghost use Rattle.std.specs.Prelude.{◌≡◌};
ghost use Rattle.axis_count.specs.Count.{counted_by, counted_doubles};

use axis_decode::{Move, is_double};
use position::{FIRST, LAST};

// Word 0 and RANGE.
#[derive(Clone, Copy, Debug, PartialEq, Eq)]
pub struct Counted {
    pub word: u64,
    pub range: bool,
}

// Word 0 and RANGE after an entry.
#[tactic(auto, unfolding(crate::specs::Count::counted_word, crate::specs::Count::counted_range))]
pub fn count(m: Move, word: u64, range: bool) -> Counted
    ensures { result ≡ counted_by m word range }
{
    match m {
        Move::Still | Move::Double => Counted { word, range },
        Move::Forward if word < LAST => Counted {
            word: word + 1,
            range,
        },
        Move::Back if FIRST < word => Counted {
            word: word - 1,
            range,
        },
        Move::Forward | Move::Back => Counted { word, range: true },
    }
}

// Doubles after an entry.
#[tactic(auto, unfolding(crate::specs::Count::counted_doubles))]
pub fn count_doubles(m: Move, doubles: u16) -> u16
    ensures { result ≡ counted_doubles m doubles }
{
    if is_double(m) {
        doubles.saturating_add(1)
    } else {
        doubles
    }
}

// The four words of a row, and the axis that they hold.
ghost use Rattle.std.specs.Prelude.{◌≡◌};
ghost use Rattle.axis.specs.Row.{blank, fresh, fresh_at};

use crate::config::Config;

// The four words of a row.
#[derive(Clone, Copy, Debug, PartialEq, Eq, Default)]
pub struct Row {
    pub w0: u64,
    pub w1: u64,
    pub w2: u64,
    pub w3: u64,
}

// The flags of an axis.
#[derive(Clone, Copy, Debug, PartialEq, Eq, Default)]
pub struct Flags {
    pub primed: bool,
    pub armed: bool,
    pub homed: bool,
    pub range: bool,
    pub index: bool,
}

// Direction, age and period.
#[derive(Clone, Copy, Debug, PartialEq, Eq, Default)]
pub struct Pace {
    pub direction: u8,
    pub age: u32,
    pub period: u32,
}

// What a row holds. The position stays as word 0 has it, 2^62 more than it is.
#[derive(Clone, Copy, Debug, PartialEq, Eq)]
pub struct Axis {
    pub word: u64,
    pub config: Config,
    pub flags: Flags,
    pub levels: [bool; 3],
    pub runs: [u8; 3],
    pub doubles: u16,
    pub pace: Pace,
}

impl Axis {
    // The axis that a setup makes, at the position that has this word.
    pub fn setup_at(c: Config, word: u64) -> Axis
        ensures { result ≡ fresh_at c word }
    {
        Axis {
            word,
            config: c,
            flags: Flags::default(),
            levels: [false; 3],
            runs: [0; 3],
            doubles: 0,
            pace: Pace::default(),
        }
    }

    // The axis that a setup makes, at position 0.
    pub fn setup(c: Config) -> Axis
        ensures { result ≡ fresh c }
    {
        Axis::setup_at(c, position::ORIGIN)
    }

    // The axis of an erased row.
    pub fn erased() -> Axis
        ensures { result ≡ blank }
    {
        Axis::setup_at(Config::default(), 0)
    }
}

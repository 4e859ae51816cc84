// The three lines: the raw levels of a sample, and what the filter makes of them.
#![tactic(auto)]

ghost use Rattle.std.specs.Prelude.{◌≡◌};
ghost use Rattle.axis_filter.specs.Lines.{raw_of};

pub mod filter; // filter.rt: the three lines after a sample

// The raw levels of one sample.
#[derive(Clone, Copy, Debug, PartialEq, Eq)]
pub struct Raw {
    pub a: bool,
    pub b: bool,
    pub z: bool,
}

// A filtered line: its level, and how many samples in a row have differed from it.
#[derive(Clone, Copy, Debug, PartialEq, Eq)]
pub struct Line {
    pub level: bool,
    pub run: u8,
}

// The three filtered lines.
#[derive(Clone, Copy, Debug, PartialEq, Eq)]
pub struct Lines {
    pub a: Line,
    pub b: Line,
    pub z: Line,
}

// The raw levels of a sample's four bits.
pub fn raw_of(nibble: u64) -> Raw
    ensures { result ≡ raw_of nibble }
{
    Raw {
        a: fields::flag(nibble, 0),
        b: fields::flag(nibble, 1),
        z: fields::flag(nibble, 2),
    }
}

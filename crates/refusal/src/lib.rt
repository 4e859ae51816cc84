// The reasons for saying no, and the numbers that docs/RULES.md gives them.
#![tactic(auto)]

ghost use Rattle.std.specs.Prelude.{◌≡◌, Some};
ghost use Rattle.refusal.specs.Refusal.{number_of, found_in, name_of};

use std::error::Error;
use std::fmt;

// Why a call is refused, by number; specs/Order.antt says in which order the reasons are checked.
#[derive(Clone, Copy, Debug, PartialEq, Eq)]
pub enum Refusal {
    Length,
    Axis,
    Broken,
    Empty,
    Kind,
    Value,
    Half,
    Range,
    NoPeriod,
    Room,
    Layout(u16),
    Record,
    Occupied,
}

impl Refusal {
    // The number of a reason.
    pub fn number(self) -> u32
        ensures { result ≡ number_of self }
    {
        match self {
            Refusal::Length => 1,
            Refusal::Axis => 2,
            Refusal::Broken => 3,
            Refusal::Empty => 4,
            Refusal::Kind => 5,
            Refusal::Value => 6,
            Refusal::Half => 7,
            Refusal::Range => 8,
            Refusal::NoPeriod => 9,
            Refusal::Room => 10,
            Refusal::Layout(_) => 11,
            Refusal::Record => 12,
            Refusal::Occupied => 13,
        }
    }

    // The layout number that was found, 0 for every other reason.
    pub fn found(self) -> u32
        ensures { result ≡ found_in self }
    {
        match self {
            Refusal::Layout(n) => u32::from(n),
            _ => 0,
        }
    }
}

// The name that docs/RULES.md gives a reason, with the layout number that was found.
impl fmt::Display for Refusal {
    ghost output = { λ r. Some (name_of r) };

    fn fmt<W: fmt::Write>(&self, f: &mut fmt::Formatter<W>) -> fmt::Result {
        match self {
            Refusal::Length => f.write_str("LENGTH"),
            Refusal::Axis => f.write_str("AXIS"),
            Refusal::Broken => f.write_str("BROKEN"),
            Refusal::Empty => f.write_str("EMPTY"),
            Refusal::Kind => f.write_str("KIND"),
            Refusal::Value => f.write_str("VALUE"),
            Refusal::Half => f.write_str("HALF"),
            Refusal::Range => f.write_str("RANGE"),
            Refusal::NoPeriod => f.write_str("NO PERIOD"),
            Refusal::Room => f.write_str("ROOM"),
            Refusal::Layout(n) => write!(f, "LAYOUT {n}"),
            Refusal::Record => f.write_str("RECORD"),
            Refusal::Occupied => f.write_str("OCCUPIED"),
        }
    }
}

impl Error for Refusal {}

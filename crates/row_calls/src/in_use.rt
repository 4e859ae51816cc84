// The axis that a call works on, by what the named row is.
ghost use Rattle.std.specs.Prelude.{◌≡◌, true};
ghost use Rattle.position.specs.Position.{in_range, word_of, position_of};
ghost use Rattle.axis.specs.Row.{row_of};
ghost use Rattle.row_calls.specs.Change.{changed};
ghost use Rattle.row_calls.specs.Calls.{axis_in_use, axis_sampled, axis_counting};

use axis::row::{Axis, Row};
use axis_open::{Opened, open};
use axis_packing::pack::pack;
use axis_sound::Status;
use refusal::Refusal;
use std::marker::Model;

// The axis of a row that is in use: its word holds a position, and each of its fields is within its width.
#[derive(Clone, Copy)]
pub struct InUse {
    pub axis: Axis,
}

impl Model for InUse {
    ghost use Rattle.position.specs.Position.{Word};
    ghost use Rattle.axis.specs.Row.{Narrow};
    ghost use Rattle.axis.specs.declared.row.Axis.{Axis};

    ghost Value = { Axis };

    ghost view = { λ a. a.axis };

    ghost invariant = { λ a. Word a.axis.word × Narrow a.axis };

    ghost inverse = { λ x. record { axis = x } };
}

impl InUse {
    // Its position.
    pub fn position(self) -> i64
        ensures { result ≡ position_of self.word }
    {
        position::at_word(self.axis.word)
    }

    // The axis at another position.
    pub fn moved(self, position: i64) -> InUse
        requires { in_range position ≡ true }
        ensures { result ≡ changed self (word_of position) self.flags self.doubles }
    {
        InUse {
            axis: Axis {
                word: position::word_of(position),
                ..self.axis
            },
        }
    }

    // Its row.
    pub fn row(self) -> Row
        ensures { result ≡ row_of self }
    {
        pack(self.axis)
    }
}

// The axis of a sampled row or of a counter: BROKEN, EMPTY.
#[tactic(auto, unfolding(crate::specs::Calls::axis_in_use))]
pub fn in_use(r: Row) -> Result<InUse, Refusal>
    ensures { result ≡ axis_in_use r }
{
    let Opened { status, axis } = open(r);
    match status {
        Status::Broken => Err(Refusal::Broken),
        Status::Empty => Err(Refusal::Empty),
        Status::Sampled | Status::Counter => Ok(InUse { axis }),
    }
}

// The axis of a sampled row: BROKEN, EMPTY, KIND.
#[tactic(auto, unfolding(crate::specs::Calls::axis_sampled))]
pub fn sampled(r: Row) -> Result<InUse, Refusal>
    ensures { result ≡ axis_sampled r }
{
    let Opened { status, axis } = open(r);
    match status {
        Status::Broken => Err(Refusal::Broken),
        Status::Empty => Err(Refusal::Empty),
        Status::Sampled => Ok(InUse { axis }),
        Status::Counter => Err(Refusal::Kind),
    }
}

// The axis of a counter: BROKEN, EMPTY, KIND.
#[tactic(auto, unfolding(crate::specs::Calls::axis_counting))]
pub fn counting(r: Row) -> Result<InUse, Refusal>
    ensures { result ≡ axis_counting r }
{
    let Opened { status, axis } = open(r);
    match status {
        Status::Broken => Err(Refusal::Broken),
        Status::Empty => Err(Refusal::Empty),
        Status::Sampled => Err(Refusal::Kind),
        Status::Counter => Ok(InUse { axis }),
    }
}

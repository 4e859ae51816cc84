// Direction, age and period after an entry.
#![tactic(auto)]

ghost use Rattle.std.specs.Prelude.{◌≡◌};
ghost use Rattle.axis_pace.specs.Pace.{older, step_period, paced_by};

use axis::row::Pace;
use axis_decode::Move;

// The directions; 0 is none.
const FORWARD: u8 = 1;

const BACK: u8 = 2;

// Where age stops.
const OLDEST: u32 = u32::MAX;

// The age one sample on.
#[tactic(auto, unfolding(crate::specs::Pace::older))]
fn older_by_one(age: u32) -> u32
    ensures { result ≡ older age }
{
    age.saturating_add(1)
}

// The period of a step to one side, at the direction and the age before it.
#[tactic(auto, unfolding(crate::specs::Pace::step_period))]
fn step_period(side: u8, direction: u8, age: u32) -> u32
    ensures { result ≡ step_period side direction age }
{
    let gap = older_by_one(age);
    if (gap < OLDEST) & (direction == side) {
        gap
    } else {
        0
    }
}

// Direction, age and period after an entry.
#[tactic(auto, unfolding(crate::specs::Pace::paced_direction, crate::specs::Pace::paced_age, crate::specs::Pace::paced_period))]
pub fn paced(m: Move, p: Pace) -> Pace
    ensures { result ≡ paced_by m p }
{
    match m {
        Move::Still => Pace {
            age: older_by_one(p.age),
            ..p
        },
        Move::Forward => Pace {
            direction: FORWARD,
            age: 0,
            period: step_period(FORWARD, p.direction, p.age),
        },
        Move::Back => Pace {
            direction: BACK,
            age: 0,
            period: step_period(BACK, p.direction, p.age),
        },
        Move::Double => Pace::default(),
    }
}

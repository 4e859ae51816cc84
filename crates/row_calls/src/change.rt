// Preset, arm and acknowledge: the row is opened, its axis changed, and packed again.
ghost use Rattle.std.specs.Prelude.{◌≡◌};
ghost use Rattle.row_calls.specs.Calls.{axis_sampled, preset_row, arm_row, acknowledge_row};

use crate::in_use::{InUse, in_use, sampled};
use axis::row::Row;
use refusal::Refusal;

// Preset: another position, with HOMED and RANGE cleared.
pub fn preset(r: Row, position: i64) -> Result<Row, Refusal>
    ensures { result ≡ preset_row position r }
{
    let x = in_use(r)?;
    if !position::in_range(position) {
        return Err(Refusal::Value);
    }
    let mut moved = x.moved(position);
    moved.axis.flags.homed = false;
    moved.axis.flags.range = false;
    Ok(moved.row())
}

// The axis that arm and acknowledge change, which are for sampled rows alone: BROKEN, EMPTY, KIND.
fn on_sampled(r: Row) -> Result<InUse, Refusal>
    ensures { result ≡ axis_sampled r }
{
    sampled(r)
}

// Arm: the next reference edge is to home.
pub fn arm(r: Row) -> Result<Row, Refusal>
    ensures { result ≡ arm_row r }
{
    let mut armed = on_sampled(r)?;
    armed.axis.flags.armed = true;
    armed.axis.flags.homed = false;
    Ok(armed.row())
}

// Acknowledge: doubles and INDEX have been seen.
pub fn acknowledge(r: Row) -> Result<Row, Refusal>
    ensures { result ≡ acknowledge_row r }
{
    let mut seen = on_sampled(r)?;
    seen.axis.flags.index = false;
    seen.axis.doubles = 0;
    Ok(seen.row())
}

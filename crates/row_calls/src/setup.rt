// Setup, which takes an empty row alone, and erase, which takes any.
ghost use Rattle.std.specs.Prelude.{◌≡◌};
ghost use Rattle.row_calls.specs.Calls.{setup_row, erase_row};

use axis::config::{Config, Setting};
use axis::row::{Axis, Row};
use axis_packing::pack::pack;
use axis_sound::is_empty;
use refusal::Refusal;

// An axis set up in an empty row.
#[tactic(auto, unfolding(crate::specs::Calls::setup_row))]
pub fn setup(r: Row, setting: Setting) -> Result<Row, Refusal>
    ensures { result ≡ setup_row setting.kind setting.depth setting.width setting.turn r }
{
    if !is_empty(r) {
        return Err(Refusal::Occupied);
    }
    let config = Config::try_from(setting).map_err(|_| Refusal::Value)?;
    Ok(pack(Axis::setup(config)))
}

// Four zero words.
#[tactic(auto, unfolding(crate::specs::Calls::erase_row))]
pub fn erase() -> Result<Row, Refusal>
    ensures { (r : Row) → result ≡ erase_row r }
{
    Ok(pack(Axis::erased()))
}

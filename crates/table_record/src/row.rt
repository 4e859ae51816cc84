// What a row adds to the record of its table.
ghost use Rattle.std.specs.Prelude.{◌≡◌};
ghost use Rattle.table_record.specs.Saving.{row_says};

use axis::row::Row;
use axis_open::{Opened, open};
use axis_sound::Status;
use record_axis::saved::Saved;
use refusal::Refusal;
use row_saving::kept;

// What a row adds: a sampled row and a counter their axis, an empty row nothing; a broken row refuses the save.
#[tactic(auto, unfolding(crate::specs::Saving::row_says))]
pub fn said_by(r: Row) -> Result<Option<Saved>, Refusal>
    ensures { result ≡ row_says r }
{
    let Opened { status, axis } = open(r);
    match status {
        Status::Broken => Err(Refusal::Broken),
        Status::Empty => Ok(None),
        Status::Sampled | Status::Counter => Ok(Some(kept(axis))),
    }
}

// Save and restore.
#![tactic(auto)]

ghost use Rattle.std.specs.Prelude.{◌≡◌, true, length};
ghost use Rattle.position.specs.Position.{Word};
ghost use Rattle.record_axis.specs.Limits.{within_limits};
ghost use Rattle.row_calls.specs.Calls.{on_empty};
ghost use Rattle.row_saving.specs.Saving.{saved_of, save_row, saved_in, said_row, restore_row};

use axis::row::{Axis, Row};
use axis_packing::pack::pack;
use axis_sound::is_empty;
use record_axis::saved::Saved;
use refusal::Refusal;
use row_calls::in_use::in_use;

// What is saved of an axis.
pub fn kept(a: Axis) -> Saved
    requires { Word a.word }
    ensures { result ≡ saved_of a }
{
    Saved {
        config: a.config,
        position: position::at_word(a.word),
    }
}

// Save: the axis's record at the front of a buffer.
pub fn save(r: Row, buf: &mut [u8]) -> Result<usize, Refusal>
    ensures { (result ≡ save_row (length buf.old) r) × (buf.new ≡ saved_in buf.old r) }
{
    let x = in_use(r)?;
    record_writer::save(buf, kept(x.axis))
}

// The row that a record says, as setup and then preset would leave it.
pub fn said_row(saved: Saved) -> Row
    requires { within_limits saved ≡ true }
    ensures { result ≡ said_row saved }
{
    let config = saved.config;
    let word = position::word_of(saved.position);
    pack(Axis::setup_at(config, word))
}

// The axis that a record says, in an empty row.
fn put_in(r: Row, saved: Saved) -> Result<Row, Refusal>
    requires { within_limits saved ≡ true }
    ensures { result ≡ on_empty (Ok (said_row saved)) r }
{
    if !is_empty(r) {
        return Err(Refusal::Occupied);
    }
    Ok(said_row(saved))
}

// Restore: the record is read to its end before the row is looked at.
pub fn restore(r: Row, slice: &[u8]) -> Result<Row, Refusal>
    ensures { result ≡ restore_row slice.now r }
{
    let saved = record::reader::read(slice)?;
    put_in(r, saved)
}

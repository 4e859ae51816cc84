// A reading of a narrow counter: what it answers, and what it makes of the row.
#![tactic(auto)]

ghost use Rattle.std.specs.Prelude.{◌≡◌};
ghost use Rattle.row_counter.specs.Reading.{reading_of, reading_row, read_row, position_read, row_made};

use axis::row::Row;
use refusal::Refusal;
use row_calls::in_use::{InUse, counting};

// What a reading says of a counter.
fn widened(x: InUse, reading: u64) -> Result<i64, Refusal>
    ensures { result ≡ reading_of reading x }
{
    reckon::widening::widen(u64::from(x.axis.config.width), x.position(), reading)
}

// Reading: the position that it gives, and the row with that position stored.
pub fn read(r: Row, reading: u64) -> Result<(i64, Row), Refusal>
    ensures { (position_read result ≡ reading_row reading r) × (row_made result ≡ read_row reading r) }
{
    let counter = counting(r)?;
    let position = widened(counter, reading)?;
    Ok((position, counter.moved(position).row()))
}

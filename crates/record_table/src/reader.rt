// The reader of a whole table's record: it goes through the record once and keeps no list of what it says.
ghost use Rattle.std.specs.Prelude.{◌≡◌};
ghost use Rattle.record_table.specs.TableRecord.{closes_at, entries_at, table_read_as};
ghost use Rattle.record_table.specs.Survey.{survey_of};

use crate::opening::opens;
use crate::tags::COUNT;
use axis::limit::AXES;
use record::reader::layout_refusal;
use record::tags::END;
use record_entry::reader::read_entry;
use refusal::Refusal;
use tagged::field::read_field;

// Whether the end field stands at at with nothing after it.
#[tactic(auto, unfolding(crate::specs::TableRecord::closes_at))]
fn closes(slice: &[u8], at: usize) -> bool
    ensures { result ≡ closes_at slice.now at }
{
    let Some((_, at)) = read_field(slice, at, END, 0) else {
        return false;
    };
    slice.len() == at
}

// Count entries from at on, each with a number above the one before, and the end: how many there are, and the first number above all of
// theirs.
fn walk(slice: &[u8], at: usize, count: usize) -> Result<(usize, u64), Refusal>
    ensures { result ≡ survey_of (entries_at count slice.now at 0) }
{
    let mut next = at;
    let mut least: u64 = 0;
    for _ in 0..count {
        let (entry, after) = read_entry(slice, next, least)?;
        least = u64::from(entry.axis) + 1;
        next = after;
    }
    if !closes(slice, next) {
        return Err(Refusal::Record);
    }
    Ok((count, least))
}

// How many axes a record says and the first number above all of theirs, or why it is refused: the first check that fails.
#[tactic(auto, unfolding(crate::specs::TableRecord::table_read_as, axis::specs::Limit::most_axes))]
pub fn read_table(slice: &[u8]) -> Result<(usize, u64), Refusal>
    ensures { result ≡ survey_of (table_read_as slice.now) }
{
    if !opens(slice) {
        return Err(layout_refusal(slice));
    }
    let Some((count, at)) = read_field(slice, 5, COUNT, 1) else {
        return Err(Refusal::Record);
    };
    if count > AXES as u64 {
        return Err(Refusal::Value);
    }
    walk(slice, at, count as usize)
}

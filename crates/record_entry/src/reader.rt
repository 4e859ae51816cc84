// An entry, read at any place.
ghost use Rattle.std.specs.Prelude.{◌≡◌};
ghost use Rattle.record_entry.specs.Entry.{entry_from};

use crate::entry::Entry;
use crate::judged::read_saved;
use crate::tags::AXIS;
use refusal::Refusal;
use tagged::field::read_field;

// The entry at at, whose number must be at least least, and where the next field begins; or why it is refused: the first check that fails.
#[tactic(auto, unfolding(crate::specs::Entry::entry_from), using(tagged::proofs::FieldLaws::field_below))]
pub fn read_entry(slice: &[u8], at: usize, least: u64) -> Result<(Entry, usize), Refusal>
    ensures { result ≡ entry_from slice.now at least }
{
    let Some((axis, at)) = read_field(slice, at, AXIS, 1) else {
        return Err(Refusal::Record);
    };
    if axis < least {
        return Err(Refusal::Value);
    }
    let axis = axis as u8;
    let (saved, at) = read_saved(slice, at)?;
    Ok((Entry { axis, saved }, at))
}

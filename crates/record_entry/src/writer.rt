// An entry, written at any place.
ghost use Rattle.std.specs.Prelude.{◌+◌, ◌≤◌, length};
ghost use Rattle.tagged.specs.Store.{Puts};
ghost use Rattle.record_axis.specs.AxisFields.{axis_length};
ghost use Rattle.record_entry.specs.Entry.{entry_bytes};

use crate::entry::Entry;
use crate::tags::AXIS;
use record_writer::put_axis;
use tagged::field::put_field;

// An entry at at; answers where the next field begins.
#[tactic(auto, unfolding(crate::specs::Entry::entry_bytes, tagged::specs::Field::field_bytes, tagged::specs::Bytes::bytes_of), using(tagged::proofs::StoreLaws::puts_then))]
pub fn put_entry(buf: &mut [u8], at: usize, entry: Entry) -> usize
    requires { at + 4 + axis_length entry.saved.config.kind ≤ length buf.old }
    ensures { Puts (entry_bytes entry) buf.old at buf.new result }
{
    let at = put_field(buf, at, AXIS, 1, u64::from(entry.axis));
    put_axis(buf, at, entry.saved)
}

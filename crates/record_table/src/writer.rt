// What a record of a whole table has before its first entry.
ghost use Rattle.std.specs.Prelude.{◌≤◌, length};
ghost use Rattle.tagged.specs.Store.{Puts};
ghost use Rattle.record_table.specs.TableRecord.{table_front};

use crate::opening::OPENING;
use crate::tags::COUNT;
use tagged::bytes::put_bytes;
use tagged::field::put_field;

// The opening and the number of axes at the front of a buffer; answers where the first entry begins.
pub fn put_table_front(buf: &mut [u8], count: usize) -> usize
    requires { 9 ≤ length buf.old }
    ensures { Puts (table_front count) buf.old 0 buf.new result }
{
    let at = put_bytes(buf, 0, &OPENING);
    put_field(buf, at, COUNT, 1, count as u64)
}

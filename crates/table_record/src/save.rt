// The whole-table save.
ghost use Rattle.std.specs.Prelude.{◌+◌, ◌≤◌, length};
ghost use Rattle.tagged.specs.Store.{Puts};
ghost use Rattle.record_table.specs.TableRecord.{entries_bytes};
ghost use Rattle.table_record.specs.Saving.{entries_in, TableSaves};

use crate::measure::size_of;
use crate::row::said_by;
use crate::rows::Rows;
use record::tags::END;
use record_entry::entry::Entry;
use record_entry::writer::put_entry;
use record_table::writer::put_table_front;
use refusal::Refusal;
use tagged::field::put_field;

// The entries of a table's rows at at; answers where the next field begins.
fn put_rows(rows: &Rows, buf: &mut [u8], at: usize) -> usize
    requires { at + length (entries_bytes (entries_in rows.now)) ≤ length buf.old }
    ensures { Puts (entries_bytes (entries_in rows.now)) buf.old at buf.new result }
{
    let mut next = at;
    for k in 0..rows.count() {
        let Ok(Some(saved)) = said_by(rows.row(k)) else {
            continue;
        };
        let axis = k as u8;
        next = put_entry(buf, next, Entry { axis, saved });
    }
    next
}

// The record of every row that is not empty at the front of a buffer: LENGTH, BROKEN, ROOM.
pub fn save_table(table: &[u64], buf: &mut [u8]) -> Result<usize, Refusal>
    ensures { TableSaves table.now buf.old buf.new result }
{
    let rows = Rows::try_from(table)?;
    let size = size_of(&rows);
    if size.broken {
        return Err(Refusal::Broken);
    }
    if buf.len() < 12 + size.bytes {
        return Err(Refusal::Room);
    }
    let at = put_table_front(buf, size.count);
    let at = put_rows(&rows, buf, at);
    Ok(put_field(buf, at, END, 0, 0))
}

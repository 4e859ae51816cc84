// The whole-table restore: the record is read once to judge it, and once more to write the rows that it says.
ghost use Rattle.std.specs.Prelude.{◌≡◌, length};
ghost use Rattle.table_rows.specs.Table.{axes_in};
ghost use Rattle.table_record.specs.Restoring.{all_empty, entries_said, Fillable, filled, TableRestores};
ghost use Rattle.record_table.specs.TableRecord.{entries_at};

use crate::rows::Rows;
use axis_sound::is_empty;
use record_entry::reader::read_entry;
use record_table::reader::read_table;
use refusal::Refusal;
use row_saving::said_row;
use table_rows::write_row;

// Whether every one of a table's rows is empty.
fn all_empty(rows: &Rows) -> bool
    ensures { result ≡ all_empty (axes_in (length rows.now)) rows.now }
{
    (0..rows.count()).all(|k| is_empty(rows.row(k)))
}

// The rows that the entries of a record say, from its tenth byte on; the record has been judged before.
fn fill(table: &mut [u64], slice: &[u8], count: usize)
    requires { Fillable count slice.now table.old }
    ensures { table.new ≡ filled table.old (entries_said (entries_at count slice.now 9 0)) }
{
    let mut at = 9;
    let mut least: u64 = 0;
    for _ in 0..count {
        let (entry, next) = read_entry(slice, at, least).unwrap();
        write_row(table, usize::from(entry.axis), said_row(entry.saved));
        least = u64::from(entry.axis) + 1;
        at = next;
    }
}

// Every axis that a record says, in a table of empty rows: LENGTH, then the record's own checks in its own order, AXIS, OCCUPIED.
pub fn restore_table(table: &mut [u64], slice: &[u8]) -> Result<(), Refusal>
    ensures { TableRestores slice.now table.old table.new result }
{
    let rows = Rows::try_from(&*table)?;
    let (count, bound) = read_table(slice)?;
    if bound > rows.count() as u64 {
        return Err(Refusal::Axis);
    }
    if !all_empty(&rows) {
        return Err(Refusal::Occupied);
    }
    fill(table, slice, count);
    Ok(())
}

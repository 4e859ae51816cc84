// What a call makes of the named row, written back or not.
ghost use Rattle.std.specs.Prelude.{◌≡◌, ◌+◌, ◌*◌, ◌≤◌, length, Result};
ghost use Rattle.refusal.specs.declared.Refusal.{Refusal};
ghost use Rattle.axis.specs.declared.row.Row.{Row};
ghost use Rattle.table_change.specs.Making.{Commits, Makes};

use axis::row::Row;
use refusal::Refusal;
use table_rows::{locate, write_row};

// The row that the call made takes the named one's place, or every word stays.
pub fn commit(table: &mut [u64], axis: u64, change: Result<Row, Refusal>) -> Result<(), Refusal>
    requires { axis * 4 + 4 ≤ length table.old }
    ensures { Commits change table.old axis table.new result }
{
    write_row(table, axis as usize, change?);
    Ok(())
}

// What a rule makes of the named row, written back: LENGTH, AXIS, then the rule's own reasons.
pub fn make<F: FnOnce(Row) -> Result<Row, Refusal>>(
    table: &mut [u64],
    axis: u64,
    change: F,
) -> Result<(), Refusal>
    requires { F.IsAlwaysCallable change }
    ensures { (rule : Row → Result Row Refusal)
        → ((r : Row) (c : Result Row Refusal) → F.post change r c → c ≡ rule r)
        → Makes rule table.old axis table.new result }
{
    let row = locate(table, axis)?;
    commit(table, axis, change(row))
}

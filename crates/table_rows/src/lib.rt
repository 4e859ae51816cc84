// The rows of a lent slice: how many there are, one read, one written, and the one that a call names.
#![tactic(auto)]

ghost use Rattle.std.specs.Prelude.{◌≡◌, ◌+◌, ◌*◌, ◌≤◌, length};
ghost use Rattle.table_rows.specs.Table.{axes_in, row_at, set_row};
ghost use Rattle.table_rows.specs.Located.{axes_or_length, located};

use axis::limit::AXES;
use axis::row::Row;
use refusal::Refusal;

// How many axes a slice of so many words holds, and 0 where the length is wrong.
pub fn axes_in(len: usize) -> usize
    ensures { result ≡ axes_in len }
{
    match axes_or_length(len) {
        Ok(n) => n,
        Err(_) => 0,
    }
}

// How many axes a slice of so many words holds: LENGTH.
pub fn axes_or_length(len: usize) -> Result<usize, Refusal>
    ensures { result ≡ axes_or_length len }
{
    if (len % 4 == 0) & (0 < len / 4) & (len / 4 <= AXES) {
        return Ok(len / 4);
    }
    Err(Refusal::Length)
}

// Row k.
pub fn read_row(table: &[u64], k: usize) -> Row
    requires { k * 4 + 4 ≤ length table.now }
    ensures { result ≡ row_at table.now k }
{
    let at = k * 4;
    Row {
        w0: table[at],
        w1: table[at + 1],
        w2: table[at + 2],
        w3: table[at + 3],
    }
}

// Row k replaced, and no other word.
pub fn write_row(table: &mut [u64], k: usize, row: Row)
    requires { k * 4 + 4 ≤ length table.old }
    ensures { table.new ≡ set_row table.old k row }
{
    let at = k * 4;
    table[at] = row.w0;
    table[at + 1] = row.w1;
    table[at + 2] = row.w2;
    table[at + 3] = row.w3;
}

// The named row: the number is compared with the axes there are before it picks a word.
pub fn locate(table: &[u64], axis: u64) -> Result<Row, Refusal>
    ensures { result ≡ located table.now axis }
{
    let n = axes_or_length(table.len())?;
    if axis < n as u64 {
        return Ok(read_row(table, axis as usize));
    }
    Err(Refusal::Axis)
}

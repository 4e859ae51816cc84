// How long the record of a table is.
ghost use Rattle.std.specs.Prelude.{◌*◌, ◌≤◌, ◌≡◌, length};
ghost use Rattle.axis.specs.Limit.{most_axes};
ghost use Rattle.table_rows.specs.Table.{axes_in};
ghost use Rattle.table_record.specs.Saving.{size_with, size_to};

use crate::row::said_by;
use crate::rows::Rows;
use record_axis::saved::Saved;
use record_writer::axis_length;
use refusal::Refusal;

// How many rows are saved, how many bytes their entries are, and whether a row is broken.
#[derive(Clone, Copy, Default)]
pub struct Size {
    pub count: usize,
    pub bytes: usize,
    pub broken: bool,
}

// A size with one row more.
#[tactic(auto, unfolding(axis::specs::Limit::most_axes))]
fn with_row(size: Size, said: Result<Option<Saved>, Refusal>) -> Size
    requires { (size.count ≤ most_axes) × (size.bytes ≤ most_axes * 30) }
    ensures { result ≡ size_with size said }
{
    match said {
        Ok(None) => size,
        Ok(Some(saved)) => Size {
            count: size.count + 1,
            bytes: size.bytes + 4 + axis_length(u64::from(saved.config.kind)),
            ..size
        },
        Err(_) => Size {
            broken: true,
            ..size
        },
    }
}

// The size of a table's rows: every row is looked at before any byte is written.
pub(crate) fn size_of(rows: &Rows) -> Size
    ensures { result ≡ size_to (axes_in (length rows.now)) rows.now }
{
    let mut size = Size::default();
    for k in 0..rows.count() {
        size = with_row(size, said_by(rows.row(k)));
    }
    size
}

// The size of the first n rows of a table with so many.
pub fn measure(table: &[u64], n: usize) -> Size
    requires { n ≡ axes_in (length table.now) }
    ensures { result ≡ size_to n table.now }
{
    match Rows::try_from(table) {
        Ok(rows) => size_of(&rows),
        Err(_) => Size::default(),
    }
}

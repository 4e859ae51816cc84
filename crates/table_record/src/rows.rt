// The rows of a lent table, counted.
ghost use Rattle.std.specs.Prelude.{◌≡◌, ◌<◌, List, ℕ, length};
ghost use Rattle.table_rows.specs.Table.{axes_in, row_at};
ghost use Rattle.table_record.specs.Rows.{rows_of};

use axis::row::Row;
use refusal::Refusal;
use std::marker::Model;
use table_rows::{axes_or_length, read_row};

// The words of a table, and how many rows they are.
#[derive(Drop)]
pub struct Rows<'a> {
    words: &'a [u64],
    count: usize,
}

// Contracts see the words alone.
impl<'a> Model for Rows<'a> {
    ghost Value = { List ℕ };

    ghost view = { λ r. r.words.now };

    ghost invariant = { λ r. r.count ≡ axes_in (length r.words.now) };
}

// The rows of a table: LENGTH.
impl<'a> TryFrom<&'a [u64]> for Rows<'a> {
    type Error = Refusal;

    ghost try_from_gives = { λ words rows. rows ≡ rows_of words.now };

    fn try_from(words: &'a [u64]) -> Result<Rows<'a>, Refusal> {
        let count = axes_or_length(words.len())?;
        Ok(Rows { words, count })
    }
}

impl<'a> Rows<'a> {
    // How many they are.
    pub fn count(&self) -> usize
        ensures { result ≡ axes_in (length self.now) }
    {
        self.count
    }

    // Row k.
    pub fn row(&self, k: usize) -> Row
        requires { k < axes_in (length self.now) }
        ensures { result ≡ row_at self.now k }
    {
        read_row(self.words, k)
    }
}

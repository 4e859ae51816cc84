// The five bytes that every record of a whole table opens with, compared on reading and written on saving.
ghost use Rattle.std.specs.Prelude.{◌≡◌};
ghost use Rattle.tagged.specs.Bytes.{starts};
ghost use Rattle.record_table.specs.Opening.{table_opening};

use tagged::bytes::starts_with;

// The layout field with the number 2.
pub const OPENING: [u8; 5] = *b"\x01\x00\x02\x00\x02";

// Whether a record opens with the five bytes.
pub fn opens(slice: &[u8]) -> bool
    ensures { result ≡ starts table_opening slice.now }
{
    starts_with(slice, &OPENING)
}

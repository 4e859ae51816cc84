// The reader and the test of a record.
ghost use Rattle.std.specs.Prelude.{◌≡◌};
ghost use Rattle.record.specs.Record.{layout_refusal, ended_at, read_as, tested_as};

use crate::opening::opens;
use crate::tags::{END, LAYOUT};
use axis::config::Config;
use record_axis::axis_fields::read_axis;
use record_axis::limits::is_within;
use record_axis::saved::Saved;
use refusal::Refusal;
use tagged::field::read_field;
use tagged::twos::of_bits;

// The LAYOUT refusal of a slice without a reader's own opening, or RECORD where it has no layout field.
pub fn layout_refusal(slice: &[u8]) -> Refusal
    ensures { result ≡ layout_refusal slice.now }
{
    let Some((layout, _)) = read_field(slice, 0, LAYOUT, 2) else {
        return Refusal::Record;
    };
    Refusal::Layout(layout as u16)
}

// The end field with nothing after it, then the limits.
fn ended(slice: &[u8], at: usize, config: Config, bits: u64) -> Result<Saved, Refusal>
    ensures { result ≡ ended_at slice.now at config bits }
{
    let Some((_, at)) = read_field(slice, at, END, 0) else {
        return Err(Refusal::Record);
    };
    if slice.len() != at {
        return Err(Refusal::Record);
    }
    let saved = Saved {
        config,
        position: of_bits(bits),
    };
    if !is_within(saved) {
        return Err(Refusal::Value);
    }
    Ok(saved)
}

// What a record says, or why it is refused: the first check that fails.
pub fn read(slice: &[u8]) -> Result<Saved, Refusal>
    ensures { result ≡ read_as slice.now }
{
    if !opens(slice) {
        return Err(layout_refusal(slice));
    }
    let (config, bits, at) = read_axis(slice, 5)?;
    ended(slice, at, config, bits)
}

// Whether the reader accepts a record, or its refusal.
pub fn test(slice: &[u8]) -> Result<(), Refusal>
    ensures { result ≡ tested_as slice.now }
{
    read(slice)?;
    Ok(())
}

// A port sample on every row of a table.
#![tactic(auto)]

ghost use Rattle.std.specs.Prelude.{◌≡◌, ◌+◌, ◌*◌, ◌^◌, ◌<◌, ◌≤◌, length};
ghost use Rattle.axis.specs.Limit.{most_axes};
ghost use Rattle.table_port.specs.Port.{put_bit, noted, Below, SamplesRow, Samples};

use refusal::Refusal;
use row_sample::{SteppedRow, step_row};
use table_rows::{axes_or_length, read_row, write_row};

// Bit k is axis k's.
#[derive(Clone, Copy, Debug, Default, PartialEq, Eq)]
pub struct Masks {
    pub doubles: u16,
    pub index: u16,
    pub broken: u16,
}

// A mask that lies below bit k, with that bit put to it.
fn put_bit(mask: u16, k: usize, on: bool) -> u16
    requires { (k < most_axes) × (mask < 2 ^ k) }
    ensures { result ≡ put_bit mask k on }
{
    if on { mask | (1 << k) } else { mask }
}

// The masks with row k's bits put to them.
fn note(masks: Masks, k: usize, stepped: SteppedRow) -> Masks
    requires { (k < most_axes) × Below masks k }
    ensures { result ≡ noted masks k stepped }
{
    Masks {
        doubles: put_bit(masks.doubles, k, stepped.double),
        index: put_bit(masks.index, k, stepped.index),
        broken: put_bit(masks.broken, k, stepped.broken),
    }
}

// Row k after its own four bits of the port word, written back.
#[tactic(auto, using(crate::proofs::RoomLaws::port_room), unfolding(crate::specs::Port::nibble))]
fn sample_row(table: &mut [u64], k: usize, port: u64) -> SteppedRow
    requires { (k < most_axes) × (k * 4 + 4 ≤ length table.old) }
    ensures { SamplesRow table.old k port table.new result }
{
    let nibble = (port >> (k * 4)) & 15;
    let stepped = step_row(read_row(table, k), nibble);
    write_row(table, k, stepped.row);
    stepped
}

// One sample of every axis's lines: sampled rows step, and no row stops another.
pub fn sample(table: &mut [u64], port: u64) -> Result<Masks, Refusal>
    ensures { Samples table.old port table.new result }
{
    let n = axes_or_length(table.len())?;
    let mut masks = Masks::default();
    for k in 0..n {
        masks = note(masks, k, sample_row(table, k, port));
    }
    // One by one: copied whole, they would go through the loop in halves.
    Ok(Masks {
        doubles: masks.doubles,
        index: masks.index,
        broken: masks.broken,
    })
}

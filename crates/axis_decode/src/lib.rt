// The three transition tables, old code by new code.
#![tactic(auto)]

ghost use Rattle.std.specs.Prelude.{◌≡◌, ◌<◌};
ghost use Rattle.axis_decode.specs.Decode.{code, entry, mark, is_e};

use axis::kind::Kind;

// An entry of a transition table.
#[derive(Clone, Copy, Debug, PartialEq, Eq)]
pub enum Move {
    Still,
    Forward,
    Back,
    Double,
}

// A line for each old code, and in it the new codes 0, 1, 2, 3; 2 marks a double step.
const X4: [[i8; 4]; 4] = [
    [0, 1, -1, 2], // from 0
    [-1, 0, 2, 1], // from 1
    [1, 2, 0, -1], // from 2
    [2, -1, 1, 0], // from 3
];

const X2: [[i8; 4]; 4] = [
    [0, 1, 0, 2], // from 0
    [-1, 0, 2, 0], // from 1
    [0, 2, 0, -1], // from 2
    [2, 0, 1, 0], // from 3
];

const X1: [[i8; 4]; 4] = [
    [0, 1, 0, 2], // from 0
    [-1, 0, 2, 0], // from 1
    [0, 2, 0, 0], // from 2
    [2, 0, 0, 0], // from 3
];

// The code of two levels.
fn code_of(a: bool, b: bool) -> usize
    ensures { (result ≡ code a b) × (result < 4) }
{
    usize::from(a) + 2 * usize::from(b)
}

// What a kind's table has from an old code to a new one.
fn mark_at(kind: u8, old: usize, new: usize) -> i8
    requires { (old < 4) × (new < 4) }
    ensures { result ≡ mark (entry kind old new) }
{
    match kind {
        Kind::X4 => X4[old][new],
        Kind::X2 => X2[old][new],
        _ => X1[old][new],
    }
}

// The entry of a kind's table from an old code to a new one.
fn entry_at(kind: u8, old: usize, new: usize) -> Move
    requires { (old < 4) × (new < 4) }
    ensures { result ≡ entry kind old new }
{
    match mark_at(kind, old, new) {
        0 => Move::Still,
        1 => Move::Forward,
        2 => Move::Double,
        _ => Move::Back,
    }
}

// The entry of A and B, from their old levels to the new ones.
pub fn move_between(kind: u8, a0: bool, b0: bool, a1: bool, b1: bool) -> Move
    ensures { result ≡ entry kind (code a0 b0) (code a1 b1) }
{
    entry_at(kind, code_of(a0, b0), code_of(a1, b1))
}

// Whether an entry is a double step.
#[tactic(auto, unfolding(crate::specs::Decode::is_e))]
pub fn is_double(m: Move) -> bool
    ensures { result ≡ is_e m }
{
    m == Move::Double
}

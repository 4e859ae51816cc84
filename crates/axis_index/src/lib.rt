// The index line: the reference edge, homing and the check.
#![tactic(auto)]

ghost use Rattle.std.specs.Prelude.{◌≡◌, cond, ◌&&◌, ◌||◌, ◌^◌, nat_abs};
ghost use Rattle.position.specs.Position.{position_of};
ghost use Rattle.axis.specs.Kind.{X4};
ghost use Rattle.axis_decode.specs.Decode.{code, entry};
ghost use Rattle.axis_index.specs.Index.{edge_by, off_turn};

use axis::kind::Kind;
use axis_decode::{Move, move_between};
use position::ORIGIN;

// Which way a reference edge is met.
#[derive(Clone, Copy, Debug, PartialEq, Eq)]
pub enum Way {
    Forward,
    Backward,
}

// The reference edge of a sample, by x4's entry and Z's old and new level.
#[tactic(auto, unfolding(crate::specs::Index::edge_by))]
fn edge_by(m: Move, old: bool, new: bool) -> Option<Way>
    ensures { result ≡ edge_by m old new }
{
    match (m, old, new) {
        (Move::Forward, false, true) => Some(Way::Forward),
        (Move::Back, true, false) => Some(Way::Backward),
        _ => None,
    }
}

// The reference edge of A, B and Z, from their old levels to the new ones. x4 is asked only where Z changes, which it seldom does.
#[tactic(auto, using(crate::proofs::IndexLaws::no_change))]
pub fn edge_between(a0: bool, b0: bool, z0: bool, a1: bool, b1: bool, z1: bool) -> Option<Way>
    ensures { result ≡ edge_by (entry X4 (code a0 b0) (code a1 b1)) z0 z1 }
{
    if z0 == z1 {
        None
    } else {
        edge_by(move_between(Kind::X4, a0, b0, a1, b1), z0, z1)
    }
}

// How far the position of a word is from 0.
#[tactic(auto, using(crate::proofs::IndexLaws::far))]
fn distance(word: u64) -> u64
    ensures { result ≡ nat_abs (position_of word) }
{
    word.abs_diff(ORIGIN)
}

// Whether the position of a word is no multiple of the counts per turn.
#[tactic(auto, unfolding(crate::specs::Index::off_turn))]
fn off_turn(turn: u32, word: u64) -> bool
    ensures { result ≡ off_turn turn (position_of word) }
{
    turn != 0 && !distance(word).is_multiple_of(u64::from(turn))
}

// INDEX after a sample; `checks` where the position is to be looked at.
pub fn check(index: bool, checks: bool, turn: u32, word: u64) -> bool
    ensures { result ≡ (index || (checks && off_turn turn (position_of word))) }
{
    index | (checks && off_turn(turn, word))
}

// Word 0 where the axis homes, or does not.
pub fn home(homes: bool, word: u64) -> u64
    ensures { result ≡ cond homes (2 ^ 62) word }
{
    if homes { ORIGIN } else { word }
}

// Text in a lent buffer: lines of a label and a number.
ghost use Rattle.std.specs.Prelude.{◌≡◌, ◌+◌, ◌≤◌, length, nat_abs};
ghost use Rattle.text.specs.Text.{line_of};
ghost use Rattle.tagged.specs.Store.{Puts};

use itoa::{Buffer, Integer};
use tagged::bytes::put_bytes;

// A label, a number and a line feed from a place on; answers the place behind them.
#[tactic(auto, using(crate::proofs::TextLaws::line_length))]
pub(crate) fn put_line<N: Integer>(out: &mut [u8], at: usize, label: &[u8], n: N) -> usize
    requires { at + length (line_of label.now (N.text n)) ≤ length out.old }
    ensures { Puts (line_of label.now (N.text n)) out.old at out.new result }
{
    let mut digits = Buffer::new();
    let number = put_bytes(out, at, label);
    let end = put_bytes(out, number, digits.format(n).as_bytes());
    put_bytes(out, end, b"\n")
}

// How far a number is from 0.
pub fn size(z: i64) -> u64
    ensures { result ≡ nat_abs z }
{
    z.unsigned_abs()
}

// One field: a head of its tag and two bytes of length, then its value.
ghost use Rattle.std.specs.Prelude.{◌≡◌, ◌+◌, ◌≤◌, length};
ghost use Rattle.std.proofs.lemmas.List.Edits.{sets};
ghost use Rattle.tagged.specs.Field.{head_at, head_bytes, field_at, field_bytes};
ghost use Rattle.tagged.specs.Store.{Puts};

use crate::bytes::{number, put_number};

// The head at at, its tag and the length of the value that begins three bytes on, if the slice does not end before it does.
#[tactic(auto, using(crate::proofs::FieldLaws::head_cut, crate::proofs::FieldLaws::head_whole))]
pub fn read_head(slice: &[u8], at: usize) -> Option<(u8, usize)>
    ensures { result ≡ head_at slice.now at }
{
    if slice.len() < at || slice.len() - at < 3 {
        return None;
    }
    let length = number(slice, at + 1, 2) as usize;
    Some((slice[at], length))
}

// The field at at, its value and where the next begins, if it has this tag and holds a number of n bytes.
#[tactic(auto, using(crate::proofs::FieldLaws::cut_told, crate::proofs::FieldLaws::head_told, crate::proofs::FieldLaws::cut, crate::proofs::FieldLaws::headless, crate::proofs::FieldLaws::whole))]
pub fn read_field(slice: &[u8], at: usize, tag: u8, n: usize) -> Option<(u64, usize)>
    requires { n ≤ 8 }
    ensures { result ≡ field_at slice.now at tag n }
{
    let (found, length) = read_head(slice, at)?;
    if slice.len() - at < 3 + n {
        return None;
    }
    if (found == tag) & (length == n) {
        Some((number(slice, at + 3, n), at + 3 + n))
    } else {
        None
    }
}

// A head at at.
pub fn put_head(buf: &mut [u8], at: usize, tag: u8, n: usize)
    requires { at + 3 ≤ length buf.old }
    ensures { buf.new ≡ sets buf.old at (head_bytes tag n) }
{
    buf[at] = tag;
    put_number(buf, at + 1, 2, n as u64);
}

// A field of a number of n bytes at at; answers where the next begins.
pub fn put_field(buf: &mut [u8], at: usize, tag: u8, n: usize, v: u64) -> usize
    requires { at + 3 + n ≤ length buf.old }
    ensures { Puts (field_bytes tag n v) buf.old at buf.new result }
{
    put_head(buf, at, tag, n);
    put_number(buf, at + 3, n, v);
    at + 3 + n
}

// Bytes, and numbers in bytes, high byte first.
ghost use Rattle.std.specs.Prelude.{◌≡◌, ◌+◌, ◌≤◌, length};
ghost use Rattle.std.proofs.lemmas.List.Edits.{sets};
ghost use Rattle.tagged.specs.Bytes.{number_at, bytes_of, starts};
ghost use Rattle.tagged.specs.Store.{Puts};

// The number in n bytes from at.
pub fn number(slice: &[u8], at: usize, n: usize) -> u64
    requires { (at + n ≤ length slice.now) × (n ≤ 8) }
    ensures { result ≡ number_at slice.now at n }
{
    let mut v = 0;
    for byte in &slice[at..at + n] {
        v = v * 256 + u64::from(*byte);
    }
    v
}

// A number into n bytes from at.
pub fn put_number(buf: &mut [u8], at: usize, n: usize, v: u64)
    requires { at + n ≤ length buf.old }
    ensures { buf.new ≡ sets buf.old at (bytes_of n v) }
{
    let mut rest = v;
    for j in (0..n).rev() {
        buf[at + j] = (rest % 256) as u8;
        rest /= 256;
    }
}

// Bytes from a place on; answers the place behind them.
#[tactic(auto, using(crate::proofs::StoreLaws::puts_copy))]
pub fn put_bytes(out: &mut [u8], at: usize, bytes: &[u8]) -> usize
    requires { at + length bytes.now ≤ length out.old }
    ensures { Puts bytes.now out.old at out.new result }
{
    let end = at + bytes.len();
    out[at..end].copy_from_slice(bytes);
    end
}

// Whether a slice begins with the bytes of another.
#[tactic(auto, using(crate::proofs::BytesLaws::starts_as))]
pub fn starts_with(slice: &[u8], front: &[u8]) -> bool
    ensures { result ≡ starts front.now slice.now }
{
    slice.starts_with(front)
}

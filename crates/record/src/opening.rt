// The five bytes that every record opens with, compared on reading and written on saving.
ghost use Rattle.std.specs.Prelude.{◌≡◌};
ghost use Rattle.tagged.specs.Bytes.{starts};
ghost use Rattle.record.specs.Opening.{opening};

use tagged::bytes::starts_with;

// The layout field with the number 1, which every record opens with.
pub const OPENING: [u8; 5] = *b"\x01\x00\x02\x00\x01";

// Whether a record opens with the five bytes.
#[tactic(auto, using(tagged::proofs::BytesLaws::starts_short))]
pub fn opens(slice: &[u8]) -> bool
    ensures { result ≡ starts opening slice.now }
{
    starts_with(slice, &OPENING)
}

// The record test, on a byte slice: the address of its first byte, and its length.
ghost use Rattle.std.specs.Prelude.{◌≡◌};
ghost use Rattle.record.specs.Record.{tested_as};
ghost use Rattle.host_answers.specs.Answer.{answer_test};

use host_answers::answer::{Answer, of_tested};

// Whether a slice is a saved record, or why it is none.
pub fn ubrenchip_test_record(slice: &[u8]) -> Answer
    ensures { result ≡ answer_test (tested_as slice.now) }
{
    of_tested(record::reader::test(slice))
}

// The test of both layouts, on a byte slice.
ghost use Rattle.std.specs.Prelude.{◌≡◌};
ghost use Rattle.record_table.specs.TableRecord.{tested_either};
ghost use Rattle.host_answers.specs.Answer.{answer_test};

use host_answers::answer::{Answer, of_tested};

// Whether a slice is a record of layout 1 or of layout 2, or why it is neither.
pub fn ubrenchip_test_any(slice: &[u8]) -> Answer
    ensures { result ≡ answer_test (tested_either slice.now) }
{
    of_tested(record_table::test::test_any(slice))
}

// The test of both layouts.
ghost use Rattle.std.specs.Prelude.{◌≡◌};
ghost use Rattle.record_table.specs.TableRecord.{tested_either};

use crate::reader::read_table;
use record::opening::opens;
use refusal::Refusal;

// Whether a slice is a record of layout 1 or of layout 2, each by its own rules, or why it is neither.
#[tactic(auto, unfolding(crate::specs::TableRecord::tested_either), using(crate::proofs::SurveyLaws::tested_passes, crate::proofs::SurveyLaws::tested_fails))]
pub fn test_any(slice: &[u8]) -> Result<(), Refusal>
    ensures { result ≡ tested_either slice.now }
{
    if opens(slice) {
        return record::reader::test(slice);
    }
    read_table(slice)?;
    Ok(())
}

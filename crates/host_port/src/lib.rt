// A port sample for C: it passes its arguments on to the table's own and shows the answer as a C struct.
#![tactic(auto)]

ghost use Rattle.std.specs.Prelude.{◌≡◌};
ghost use Rattle.host_port.specs.Port.{answer_sampled, SamplesToC};

use host_answers::answer::Answer;
use refusal::Refusal;
use table_port::Masks;

// A port sample's answer: the refusal's number, the layout number found (0), and three masks in which bit k is axis k's.
#[repr(C)]
#[derive(Clone, Copy, Debug, Default, PartialEq, Eq)]
pub struct SampledAnswer {
    pub refusal: u32,
    pub found: u32,
    pub doubles: u64,
    pub index: u64,
    pub broken: u64,
}

// The answer of a port sample.
impl From<Result<Masks, Refusal>> for SampledAnswer {
    ghost from_gives = { λ r a. a ≡ answer_sampled r };

    #[tactic(auto, unfolding(crate::specs::Port::answer_sampled))]
    fn from(r: Result<Masks, Refusal>) -> SampledAnswer {
        match r {
            Ok(m) => SampledAnswer {
                refusal: 0,
                found: 0,
                doubles: u64::from(m.doubles),
                index: u64::from(m.index),
                broken: u64::from(m.broken),
            },
            Err(e) => {
                let Answer { refusal, found, .. } = Answer::from(e);
                SampledAnswer {
                    refusal,
                    found,
                    ..SampledAnswer::default()
                }
            }
        }
    }
}

// One sample of every axis's lines: LENGTH.
pub fn ubrenchip_sample(table: &mut [u64], port: u64) -> SampledAnswer
    ensures { SamplesToC table.old port table.new result }
{
    SampledAnswer::from(table_port::sample(table, port))
}

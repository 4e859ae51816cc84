// What the two speeds answer to C.
ghost use Rattle.std.specs.Prelude.{◌≡◌};
ghost use Rattle.host_answers.specs.Answer.{answer_speed};

use crate::answer::Answer;
use refusal::Refusal;
use speed::Quotient;

// A speed's answer: the refusal's number; 0, since no speed reads a record; and number, remainder and divisor, all 0 on a
// refusal.
#[repr(C)]
#[derive(Clone, Copy, Debug, Default, PartialEq, Eq)]
pub struct SpeedAnswer {
    pub refusal: u32,
    pub found: u32,
    pub number: i64,
    pub remainder: i64,
    pub divisor: u64,
}

// The answer of a speed.
impl From<Result<Quotient, Refusal>> for SpeedAnswer {
    ghost from_gives = { λ r a. a ≡ answer_speed r };

    #[tactic(auto, unfolding(crate::specs::Answer::answer_speed))]
    fn from(r: Result<Quotient, Refusal>) -> SpeedAnswer {
        match r {
            Ok(q) => SpeedAnswer {
                refusal: 0,
                found: 0,
                number: q.number,
                remainder: q.remainder,
                divisor: q.divisor,
            },
            Err(e) => {
                let Answer { refusal, found, .. } = Answer::from(e);
                SpeedAnswer {
                    refusal,
                    found,
                    ..SpeedAnswer::default()
                }
            }
        }
    }
}

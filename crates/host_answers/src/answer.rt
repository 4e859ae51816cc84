// What most calls answer to C.
ghost use Rattle.std.specs.Prelude.{◌≡◌, ◌<◌, ◌^◌};
ghost use Rattle.record.specs.Answer.{written_bytes};
ghost use Rattle.host_answers.specs.Answer.{answer_value, answer_refused, answer_to};
ghost use Rattle.host_answers.specs.Answer.{answer_test, answer_done, answer_written};

use refusal::Refusal;

// The refusal's number, 0 for done; the layout number that LAYOUT found, else 0; and the value, 0 on a refusal.
#[repr(C)]
#[derive(Clone, Copy, Debug, PartialEq, Eq)]
pub struct Answer {
    pub refusal: u32,
    pub found: u32,
    pub value: i64,
}

// The answer of a call that was done, with its value.
fn of_value(v: i64) -> Answer
    ensures { result ≡ answer_value v }
{
    Answer {
        refusal: 0,
        found: 0,
        value: v,
    }
}

// The answer of a refusal, which has no value.
impl From<Refusal> for Answer {
    ghost from_gives = { λ e a. a ≡ answer_refused e };

    fn from(e: Refusal) -> Answer {
        Answer {
            refusal: e.number(),
            found: e.found(),
            value: 0,
        }
    }
}

// The answer of a calculation.
impl From<Result<i64, Refusal>> for Answer {
    ghost from_gives = { λ r a. a ≡ answer_to r };

    #[tactic(auto, unfolding(crate::specs::Answer::answer_to))]
    fn from(r: Result<i64, Refusal>) -> Answer {
        match r {
            Ok(v) => of_value(v),
            Err(e) => Answer::from(e),
        }
    }
}

// The answer of a call that says only that it was done.
impl From<Result<(), Refusal>> for Answer {
    ghost from_gives = { λ r a. a ≡ answer_done r };

    #[tactic(auto, unfolding(crate::specs::Answer::answer_done))]
    fn from(r: Result<(), Refusal>) -> Answer {
        match r {
            Ok(()) => of_value(0),
            Err(e) => Answer::from(e),
        }
    }
}

// The answer of a record test, which is no other.
#[tactic(auto, unfolding(crate::specs::Answer::answer_test), using(crate::proofs::AnswerLaws::test_done))]
pub fn of_tested(r: Result<(), Refusal>) -> Answer
    ensures { result ≡ answer_test r }
{
    Answer::from(r)
}

// The answer of a save: the number of bytes, which fits the value. No `From`, since it asks that of its argument.
#[tactic(auto, unfolding(crate::specs::Answer::answer_written))]
pub fn of_written(r: Result<usize, Refusal>) -> Answer
    requires { written_bytes r < 2 ^ 63 }
    ensures { result ≡ answer_written r }
{
    match r {
        Ok(n) => of_value(n as i64),
        Err(e) => Answer::from(e),
    }
}

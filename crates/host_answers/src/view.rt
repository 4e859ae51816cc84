// What a view answers to C.
ghost use Rattle.std.specs.Prelude.{◌≡◌};
ghost use Rattle.host_answers.specs.Answer.{answer_view};

use crate::answer::Answer;
use refusal::Refusal;
use row_view::answer::View;

// A view's answer: the refusal's number, the layout number found (0), and what the axis shows, each flag 0 or 1.
#[repr(C)]
#[derive(Clone, Copy, Debug, Default, PartialEq, Eq)]
pub struct ViewAnswer {
    pub refusal: u32,
    pub found: u32,
    pub position: i64,
    pub kind: u32,
    pub doubles: u32,
    pub primed: u32,
    pub armed: u32,
    pub homed: u32,
    pub range: u32,
    pub index: u32,
    pub unused: u32,
}

// The answer of a view.
impl From<Result<View, Refusal>> for ViewAnswer {
    ghost from_gives = { λ r a. a ≡ answer_view r };

    #[tactic(auto, unfolding(crate::specs::Answer::answer_view))]
    fn from(r: Result<View, Refusal>) -> ViewAnswer {
        match r {
            Ok(s) => ViewAnswer {
                refusal: 0,
                found: 0,
                position: s.position,
                kind: u32::from(s.kind),
                doubles: u32::from(s.doubles),
                primed: u32::from(s.primed),
                armed: u32::from(s.armed),
                homed: u32::from(s.homed),
                range: u32::from(s.range),
                index: u32::from(s.index),
                unused: 0,
            },
            Err(e) => {
                let Answer { refusal, found, .. } = Answer::from(e);
                ViewAnswer {
                    refusal,
                    found,
                    ..ViewAnswer::default()
                }
            }
        }
    }
}

// Widening and speed by count, on plain numbers.
ghost use Rattle.std.specs.Prelude.{◌≡◌};
ghost use Rattle.reckon.specs.Widening.{widened};
ghost use Rattle.speed.specs.Speed.{speed_by_count};
ghost use Rattle.host_answers.specs.Answer.{answer_to, answer_speed};

use host_answers::answer::Answer;
use host_answers::speeds::SpeedAnswer;

// The position that a reading of a narrow counter says.
pub fn ubrenchip_widen(width: u64, position: i64, reading: u64) -> Answer
    ensures { result ≡ answer_to (widened width position reading) }
{
    Answer::from(reckon::widening::widen(width, position, reading))
}

// The speed of a count difference, in thousandths of a count a second, with what it leaves.
pub fn ubrenchip_speed_by_count(difference: i64, samples: u64, rate: u64) -> SpeedAnswer
    ensures { result ≡ answer_speed (speed_by_count difference samples rate) }
{
    SpeedAnswer::from(speed::by_count(difference, samples, rate))
}

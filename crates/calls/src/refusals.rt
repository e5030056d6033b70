// A refusal as its number, and as an answer.
ghost use Rattle.std.specs.Prelude.{◌≡◌};
ghost use Rattle.calls.specs.declared.Answer.TheVariants.{Refused};
ghost use Rattle.calls.specs.Answers.{refusal_number};

use crate::{Answer, Refusal};

// The refusal's number. Ruled out: the number of another refusal.
impl From<Refusal> for u32 {
    ghost from_gives = { λ r n. n ≡ refusal_number r };

    fn from(r: Refusal) -> u32 {
        r as u32
    }
}

// The answer of a refused call. Ruled out: another number.
impl From<Refusal> for Answer {
    ghost from_gives = { λ r a. a ≡ Refused (refusal_number r) };

    fn from(r: Refusal) -> Answer {
        Answer::Refused(u32::from(r))
    }
}

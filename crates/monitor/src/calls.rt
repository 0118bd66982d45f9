// What can be asked of a monitor, and what it answers.
ghost use Rattle.std.specs.Prelude.{◌≡◌};
ghost use Rattle.monitor.specs.Plain.{answered};

use crate::refusal::Refusal;
use crate::word::Word;

#[derive(Clone, Copy, PartialEq, Eq, Debug)]
pub enum Call {
    // Note an event with a kind: 1 for starting, 2 for ongoing. Both are numbers, since a call may name what there is not,
    // and is then refused.
    Note(u8, u8),
    // Close the step in progress.
    Close,
    // Ask for the word and the number of closed steps.
    Ask,
}

// Three outcomes, of which a word is neither success nor failure, so no `Result`.
#[derive(Clone, Copy, PartialEq, Eq, Debug)]
pub enum Answer {
    Accepted,
    Refused(Refusal),
    Says(Word, u32),
}

// What is answered to a note or a closing.
impl From<Result<(), Refusal>> for Answer {
    ghost from_gives = { λ taken answer. answer ≡ answered taken };

    fn from(taken: Result<(), Refusal>) -> Answer {
        match taken {
            Ok(()) => Answer::Accepted,
            Err(refusal) => Answer::Refused(refusal),
        }
    }
}

// Why a note or a closing is not taken.
ghost use Rattle.std.specs.Prelude.{◌≡◌, Some};
ghost use Rattle.monitor.specs.Refusals.{refusal_number, refusal_text};
ghost use Rattle.monitor.specs.declared.refusal.Refusal.TheVariants.{Event};

use std::error::Error;
use std::fmt;
use watch::UnknownKind;

#[derive(Clone, Copy, PartialEq, Eq, Debug)]
pub enum Refusal {
    // There is no such event, or no such kind.
    Event = 24,
    // The event is noted already in this step.
    Noted = 25,
    // No more steps can be closed.
    Steps = 26,
}

impl Refusal {
    // A trait for all enums with such a number would be longer than this line in each.
    pub fn number(self) -> u8
        ensures { result ≡ refusal_number self }
    {
        self as u8
    }
}

// A kind that does not exist is refused like an event that does not.
impl From<UnknownKind> for Refusal {
    ghost from_gives = { λ _ refusal. refusal ≡ Event };

    fn from(_: UnknownKind) -> Refusal {
        Refusal::Event
    }
}

// The refusal as a line, without its end. Written out: what `thiserror` derives promises no text.
impl fmt::Display for Refusal {
    ghost output = { λ refusal. Some (refusal_text refusal) };

    fn fmt<W: fmt::Write>(&self, f: &mut fmt::Formatter<W>) -> fmt::Result {
        f.write_str(match self {
            Refusal::Event => "refused 24: there is no such event, or no such kind",
            Refusal::Noted => "refused 25: the event is noted already in this step",
            Refusal::Steps => "refused 26: no more steps can be closed",
        })
    }
}

impl Error for Refusal {}

// Why a pile is not built as asked.
ghost use Rattle.std.specs.Prelude.{◌≡◌, Some};
ghost use Rattle.piles.specs.Refusals.{refusal_number, refusal_text};

use std::error::Error;
use std::fmt;

#[derive(Clone, Copy, PartialEq, Eq, Debug)]
pub enum Refusal {
    // States, marks or steps are beyond their limits, or the two watchers have not the same events.
    Limits = 32,
}

impl Refusal {
    // A trait for all enums with such a number would be longer than this line in each.
    pub fn number(self) -> u8
        ensures { result ≡ refusal_number self }
    {
        self as u8
    }
}

// The refusal as a line, without its end. Written out: what `thiserror` derives promises no text.
impl fmt::Display for Refusal {
    ghost output = { λ refusal. Some (refusal_text refusal) };

    fn fmt<W: fmt::Write>(&self, f: &mut fmt::Formatter<W>) -> fmt::Result {
        match self {
            Refusal::Limits => f.write_str("refused 32: the pile is beyond its limits"),
        }
    }
}

impl Error for Refusal {}

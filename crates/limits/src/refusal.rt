// Why a sheet is refused.
ghost use Rattle.std.specs.Prelude.{◌≡◌, Some};
ghost use Rattle.limits.specs.Refusals.{refusal_number, refusal_text};

use std::error::Error;
use std::fmt;

// The questions, each with its number. A refusal is the question that said no.
#[derive(Clone, Copy, PartialEq, Eq, Debug)]
pub enum Refusal {
    // Are there 1 to 5 events and 1 to 8 rows?
    Counts = 12,
    // Has each event at most four parameters, and does each permit name something?
    Form = 13,
    // Are the rows' numbers in range?
    Range = 14,
    // Do the events differ, name no parameter twice, and share the class of their name?
    Events = 15,
    // Is every name in a row declared, and each parameter carried with its value?
    Undeclared = 16,
    // Is the parameter whose values are permitted left free by the row's other parameters?
    Fixed = 17,
    // Is each term the number of a row?
    Terms = 18,
    // Have the rows together at most 16,384 states?
    States = 19,
}

impl Refusal {
    // A trait for all enums with such a number would be longer than this line in each.
    pub fn number(self) -> u8
        ensures { result ≡ refusal_number self }
    {
        self as u8
    }
}

// The refusal as a line, without its end. Written out: what `thiserror` derives promises no text.
impl fmt::Display for Refusal {
    ghost output = { λ refusal. Some (refusal_text refusal) };

    fn fmt<W: fmt::Write>(&self, f: &mut fmt::Formatter<W>) -> fmt::Result {
        f.write_str(match self {
            Refusal::Counts => "refused 12: a sheet has 1 to 5 events and 1 to 8 rows",
            Refusal::Form =>
                "refused 13: an event has more than four parameters, or a permit names nothing",
            Refusal::Range => "refused 14: the number of a row is out of range",
            Refusal::Events =>
                "refused 15: two events are the same or of two classes under one name, or one names a parameter twice",
            Refusal::Undeclared => "refused 16: a row names what no event has",
            Refusal::Fixed =>
                "refused 17: the parameter whose values are permitted is fixed by the row",
            Refusal::Terms => "refused 18: a term is the number of no row",
            Refusal::States => "refused 19: the rows have too many states together",
        })
    }
}

impl Error for Refusal {}

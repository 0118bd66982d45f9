// Why a list is not taken as a table.
ghost use Rattle.std.specs.Prelude.{◌≡◌, Some};
ghost use Rattle.table.specs.Refusals.{refusal_number, refusal_text};

use std::error::Error;
use std::fmt;

#[derive(Clone, Copy, PartialEq, Eq, Debug)]
pub enum Refusal {
    // The sizes are not lawful, or the list has another length than they say.
    Sizes = 30,
    // The table does not show what a watcher must.
    Laws = 31,
}

impl Refusal {
    // A trait for all enums with such a number would be longer than this line in each.
    pub fn number(self) -> u8
        ensures { result ≡ refusal_number self }
    {
        self as u8
    }
}

// The refusal as a line, without its end. Written out: what `thiserror` derives promises no text.
impl fmt::Display for Refusal {
    ghost output = { λ refusal. Some (refusal_text refusal) };

    fn fmt<W: fmt::Write>(&self, f: &mut fmt::Formatter<W>) -> fmt::Result {
        f.write_str(match self {
            Refusal::Sizes => {
                "refused 30: the sizes are not lawful, or the list has another length"
            }
            Refusal::Laws => "refused 31: the table does not show what a watcher must",
        })
    }
}

impl Error for Refusal {}

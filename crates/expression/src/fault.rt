// Why a text is refused, under which number, and how that is said.
ghost use Rattle.std.specs.Prelude.{◌≡◌, Some};
ghost use Rattle.expression.specs.Faults.{fault_number, fault_text};

use std::error::Error;
use std::fmt;

#[derive(Clone, Copy, PartialEq, Eq, Debug)]
pub enum Fault {
    // The line is not made of visible words between single spaces.
    Bytes = 11,
    // Its words are not one whole expression of at most 15 words.
    Form = 18,
}

impl Fault {
    // A trait for all enums with such a number would be longer than this line in each.
    pub fn number(self) -> u8
        ensures { result ≡ fault_number self }
    {
        self as u8
    }
}

// What is wrong with the text, without its number. Written out: what `thiserror` derives promises no text.
impl fmt::Display for Fault {
    ghost output = { λ fault. Some (fault_text fault) };

    fn fmt<W: fmt::Write>(&self, f: &mut fmt::Formatter<W>) -> fmt::Result {
        match self {
            Fault::Bytes => f.write_str("it is not words between single spaces"),
            Fault::Form => f.write_str("it is not one whole expression of at most 15 words"),
        }
    }
}

impl Error for Fault {}

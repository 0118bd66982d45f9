// What an event that is not absent does in a step.
ghost use Rattle.std.specs.Prelude.{◌≡◌, Some};
ghost use Rattle.watch.specs.Kinds.{Numbered, kind_number, unknown_text};

use std::error::Error;
use std::fmt;

// The kind of a note.
#[derive(Clone, Copy, PartialEq, Eq, Debug)]
pub enum Kind {
    Starting = 1,
    Ongoing = 2,
}

// A number that no kind has.
#[derive(Clone, Copy, PartialEq, Eq, Debug)]
pub struct UnknownKind(pub u8);

impl TryFrom<u8> for Kind {
    type Error = UnknownKind;

    ghost try_from_gives = { Numbered };

    fn try_from(number: u8) -> Result<Kind, UnknownKind> {
        match number {
            1 => Ok(Kind::Starting),
            2 => Ok(Kind::Ongoing),
            _ => Err(UnknownKind(number)),
        }
    }
}

impl From<Kind> for u8 {
    ghost from_gives = { λ kind number. number ≡ kind_number kind };

    fn from(kind: Kind) -> u8 {
        kind as u8
    }
}

impl fmt::Display for UnknownKind {
    ghost output = { λ unknown. Some (unknown_text unknown) };

    fn fmt<W: fmt::Write>(&self, f: &mut fmt::Formatter<W>) -> fmt::Result {
        write!(f, "no kind of note has number {}", self.0)
    }
}

impl Error for UnknownKind {}

// What an argument asks for: a kind of work, a number of states and how often, with commas between.
use crate::shape::Shape;
use std::error::Error;
use std::fmt;
use std::str::{FromStr, Split};

#[derive(Clone, Copy)]
pub enum Kind {
    // Opening a monitor over a computed watcher.
    Computed(Shape),
    // Opening a monitor over a drawn table.
    Drawn(Shape),
    // Opening a monitor over a pair of drawn tables with so many states each.
    Pair,
    // Closing steps of a monitor over a pair of drawn tables with so many states each.
    Close,
}

#[derive(Clone, Copy)]
pub struct Case {
    pub kind: Kind,
    pub states: u16,
    pub times: u32,
}

// What an argument asks for is said otherwise.
#[derive(Clone, Copy, PartialEq, Eq, Debug)]
pub struct NoCase;

impl FromStr for Kind {
    type Err = NoCase;

    fn from_str(word: &str) -> Result<Kind, NoCase> {
        match word {
            "up" => Ok(Kind::Computed(Shape::Up)),
            "down" => Ok(Kind::Computed(Shape::Down)),
            "round" => Ok(Kind::Computed(Shape::Round)),
            "back" => Ok(Kind::Computed(Shape::Back)),
            "mixed" => Ok(Kind::Computed(Shape::Mixed)),
            "late" => Ok(Kind::Computed(Shape::Late)),
            "drawn-up" => Ok(Kind::Drawn(Shape::Up)),
            "drawn-down" => Ok(Kind::Drawn(Shape::Down)),
            "pair" => Ok(Kind::Pair),
            "close" => Ok(Kind::Close),
            _ => Err(NoCase),
        }
    }
}

// The next part, if it can be read.
fn next<T>(parts: &mut Split<'_, char>) -> Result<T, NoCase>
where
    T: FromStr + Drop,
    T::Err: Drop,
{
    let word = parts.next().ok_or(NoCase)?;
    word.parse().map_err(|_| NoCase)
}

impl FromStr for Case {
    type Err = NoCase;

    fn from_str(word: &str) -> Result<Case, NoCase> {
        let mut parts = word.split(',');
        Ok(Case {
            kind: next(&mut parts)?,
            states: next(&mut parts)?,
            times: next(&mut parts)?,
        })
    }
}

impl fmt::Display for NoCase {
    fn fmt<W: fmt::Write>(&self, f: &mut fmt::Formatter<W>) -> fmt::Result {
        f.write_str("a case is a kind, a number of states and how often, as up,1000,5")
    }
}

impl Error for NoCase {}

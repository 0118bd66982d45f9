// The three words.
ghost use Rattle.std.specs.Prelude.{Some};
ghost use Rattle.monitor.specs.Words.{word_text};

use std::fmt;

// How the closed steps stand with the terms: whatever comes next breaks them, or keeps them, or it is open.
#[derive(Clone, Copy, PartialEq, Eq, Debug)]
pub enum Word {
    Open,
    Satisfied,
    Violated,
}

impl fmt::Display for Word {
    ghost output = { λ word. Some (word_text word) };

    fn fmt<W: fmt::Write>(&self, f: &mut fmt::Formatter<W>) -> fmt::Result {
        match self {
            Word::Open => f.write_str("open"),
            Word::Satisfied => f.write_str("satisfied"),
            Word::Violated => f.write_str("violated"),
        }
    }
}

// Marks, and sets of them.
//
// A mark is a number from 1 on that a watcher shows once a term can no longer hold.
ghost use Rattle.std.specs.Prelude.{◌≡◌, IfOk, Some, string_bytes};
ghost use Rattle.watch.specs.Marks.{has};
ghost use Rattle.watch.specs.MarkTexts.{marks_text};

use std::alloc::{AllocError, Global};
use std::fmt;

// The most marks that a watcher can have.
pub const MOST_MARKS: u8 = 8;

// How many sets of marks there are.
pub const MARK_SETS: usize = 1 << MOST_MARKS;

// A set of marks: mark i is bit i - 1.
#[derive(Clone, Copy, PartialEq, Eq, Debug)]
pub struct MarkSet {
    pub bits: u8,
}

impl MarkSet {
    pub const EMPTY: MarkSet = MarkSet { bits: 0 };

    // Whether the mark is in the set. There is no mark 0.
    pub fn has(self, mark: u8) -> bool
        ensures { result ≡ has mark self.bits }
    {
        (1..=MOST_MARKS).contains(&mark) && (self.bits >> (mark - 1)) & 1 == 1
    }

    // The set as text.
    pub fn text(self, heap: Global) -> Result<String, AllocError>
        ensures { IfOk result (λ text. string_bytes text ≡ marks_text self.bits) }
    {
        format!(in heap; "{self}")
    }
}

// The numbers of the marks in rising order with a space between two, or `none`.
impl fmt::Display for MarkSet {
    ghost output = { λ set. Some (marks_text set.bits) };

    fn fmt<W: fmt::Write>(&self, f: &mut fmt::Formatter<W>) -> fmt::Result {
        let mut gap = "";
        for mark in 1..=MOST_MARKS {
            if self.has(mark) {
                write!(f, "{gap}{mark}")?;
                gap = " ";
            }
        }
        if gap.is_empty() {
            return f.write_str("none");
        }
        Ok(())
    }
}

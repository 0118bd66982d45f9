// Making a table: the blank one, and one from a distributor's list.
ghost use Rattle.std.specs.Prelude.{◌≡◌, ℕ, List, []};
ghost use Rattle.watch.specs.Following.{Follows};
ghost use Rattle.watch.specs.Runs.{Run, Holds};
ghost use Rattle.table.specs.Drawings.{drawn};
ghost use Rattle.table.specs.Reading.{Reads};

use crate::drawing::Drawing;
use crate::refusal::Refusal;
use crate::sizes::sizes_of;
use crate::table::Table;
use std::alloc::Global;
use watch::{DIGITS, MarkSet, Passed, Sizes, follow};

impl Table {
    // The table with one state, one event and one mark, which is never shown.
    pub fn blank(heap: Global) -> Table
        ensures empty { result.words.items ≡ [] }
        ensures quiet { (run : Run) (i : ℕ) → Holds (drawn result.words.items) run i }
    {
        Table {
            words: Vec::new(heap),
            sizes: Sizes {
                states: 1,
                events: 1,
                letters: DIGITS,
                marks: 1,
            },
        }
    }

    // Follows the table along the letters, as `watch::follow` does. What is followed is what the list draws; a method that
    // the trait provides would say it of `watching self`, which a reader would have to look up.
    pub fn follow(&self, letters: &[u16], stands: &mut [Passed]) -> Result<MarkSet, usize>
        ensures { Follows (drawn self.now.words.items) letters.now stands.old stands.new result }
    {
        follow(self, letters, stands)
    }

    // Reads the list into this table. A refused list leaves the table as it was.
    pub fn read(&mut self, words: Vec<u16>) -> Result<(), Refusal>
        ensures { Reads words.items self.old result self.new }
    {
        let list = words.as_slice();
        let sizes = sizes_of(list).ok_or(Refusal::Sizes)?;
        if !(Drawing { words: list, sizes }).is_lawful() {
            return Err(Refusal::Laws);
        }
        *self = Table { words, sizes };
        Ok(())
    }
}

// What a watcher is.
//
// A watcher follows a run from its start state, one step for each letter, and each of its states shows
// a set of marks. Mark i says that term i is broken, so a mark that is shown stays shown.
ghost use Rattle.std.specs.Prelude.{◌≡◌};
ghost use Rattle.watch.specs.Watchers.{Watching, Lawful};
ghost use Rattle.watch.specs.Sizes.{sizes_of};

use crate::marks::MarkSet;

// The most states that a watcher can have.
pub const MOST_STATES: u16 = 16_384;

// How many states, events, letters and marks a watcher has. Marks are numbered from 1, the others from 0.
#[derive(Clone, Copy, PartialEq, Eq, Debug)]
pub struct Sizes {
    pub states: u16,
    pub events: u8,
    pub letters: u16,
    pub marks: u8,
}

// The value alone fixes every answer: a question changes nothing. Asked beyond its sizes, a watcher answers
// its start state, or no marks.
pub trait Watcher {
    ghost watching: { Self → Watching };

    fn sizes(&self) -> Sizes
        ensures { result ≡ sizes_of (watching self.now) };

    fn start(&self) -> u16
        ensures { result ≡ (watching self.now).start };

    // The state after one step with this letter.
    fn next(&self, state: u16, letter: u16) -> u16
        ensures { result ≡ (watching self.now).next state letter };

    // The marks that the state shows.
    fn shown(&self, state: u16) -> MarkSet
        ensures { result.bits ≡ (watching self.now).shown state };

    ghost lawful: { (w : Self) → Lawful (watching w) };
}

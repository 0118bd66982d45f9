// The search along the letters of a watcher, and the tables that it ends with.
//
// Marks only grow, so states that lead to each other show the same marks, and a run can stay at the marks of a state
// for ever exactly where the state leads back to itself. Each letter of each state is followed once.
ghost use Rattle.std.specs.Prelude.{◌≡◌, ◌≢◌, ◌<◌, true, false};
ghost use Rattle.watch.specs.Letters.{letter_count};
ghost use Rattle.outlook.specs.Outlooks.{at, Foresees};
ghost use Rattle.outlook.specs.inner.Changes.{standing, cursor};
ghost use Rattle.outlook.specs.declared.search.Standing.TheVariants.{New};
ghost use Rattle.outlook.specs.inner.Showing.{Goes, LookedAt, Stepped, Ran};

use crate::chart::Outlook;
use crate::search::{Search, Standing};
use crate::state::State;
use watch::{MARK_SETS, Watcher};

// What a search goes by: the letters of a watcher, and which sets of marks are good.
#[derive(Drop)]
struct Guide<'a, W: Watcher> {
    watcher: &'a W,
    good: &'a [bool; MARK_SETS],
    letters: u16,
    ghost all: { letters ≡ letter_count (W.watching watcher.now).events },
}

// Four methods ask that the search goes well so far. As a fact of a struct that holds the search beside the watcher it
// would be no plainer: it holds ways along the letters, so it would be truncated, and each of the four would have to
// promise that the watcher stays.
impl<'a, W: Watcher> Guide<'a, W> {
    // The state to which the letter leads.
    fn next(&self, state: State, letter: u16) -> State
        ensures { result.number ≡ (W.watching self.now.watcher.now).next state.number letter }
    {
        State {
            number: self.watcher.next(state.number, letter),
        }
    }

    // Follows the next letter of the state, which stands at the place that is looked at.
    fn look(&self, search: &mut Search, state: State)
        requires goes { Goes (W.watching self.now.watcher.now) self.now.good.now search.old }
        requires looked { LookedAt search.old state }
        requires more { cursor search.old state.number < self.now.letters }
        ensures { Stepped (W.watching self.now.watcher.now) self.now.good.now search.old search.new }
    {
        let letter = search.take_letter(state);
        let next = self.next(state, letter);
        match search.standing(next) {
            Standing::New => search.push(next),
            Standing::At(back) => {
                let marks = self.watcher.shown(state.number);
                search.note(state, self.good[usize::from(marks.bits)]);
                search.join(back);
            }
            Standing::Gone => search.absorb(state, next),
        }
    }

    // One step at the place that is looked at: a letter more, or a place less.
    fn step(&self, search: &mut Search, place: u16)
        requires goes { Goes (W.watching self.now.watcher.now) self.now.good.now search.old }
        requires here { search.old.here ≡ Some place }
        ensures { Stepped (W.watching self.now.watcher.now) self.now.good.now search.old search.new }
    {
        let stop = search.stop(place);
        if search.cursor(stop.state) < self.letters {
            self.look(search, stop.state);
        } else if search.opens(place) {
            search.leave(place);
        } else {
            search.here = stop.from;
        }
    }

    // Goes on until the path is empty.
    fn run(&self, search: &mut Search)
        requires goes { Goes (W.watching self.now.watcher.now) self.now.good.now search.old }
        ensures idle { search.new.here ≡ None }
        ensures ran { Ran (W.watching self.now.watcher.now) self.now.good.now search.old search.new }
    {
        while let Some(place) = search.here {
            self.step(search, place);
        }
    }

    // Searches from the state, unless it was on the path before.
    fn visit(&self, search: &mut Search, state: State)
        requires goes { Goes (W.watching self.now.watcher.now) self.now.good.now search.old }
        requires idle { search.old.here ≡ None }
        requires within { state.number < (W.watching self.now.watcher.now).states }
        ensures idle { search.new.here ≡ None }
        ensures ran { Ran (W.watching self.now.watcher.now) self.now.good.now search.old search.new }
        ensures seen { standing search.new state.number ≢ New }
    {
        if let Standing::New = search.standing(state) {
            search.push(state);
            self.run(search);
        }
    }
}

// For each state of the watcher, whether some endless run from there comes to rest at good marks, and whether
// some comes to rest at others. `good` says it for each set of marks, by its bits.
pub fn outlook<W: Watcher>(watcher: &W, good: &[bool; MARK_SETS]) -> Outlook
    ensures keepable { Foresees (W.watching watcher.now) good.now true (at result.keepable) }
    ensures breakable { Foresees (W.watching watcher.now) good.now false (at result.breakable) }
{
    let sizes = watcher.sizes();
    let guide = Guide {
        watcher,
        good,
        letters: sizes.letters,
    };
    let mut search = Search::begin();
    for number in 0..sizes.states {
        guide.visit(&mut search, State { number });
    }
    Outlook {
        keepable: search.keepable,
        breakable: search.breakable,
    }
}

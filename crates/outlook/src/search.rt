// The memory of a search along the letters of a watcher.
//
// The search finds states that lead to each other. States that wait stand on a path, which is cut into groups:
// the states of a group lead to each other. A letter that leads back into the path joins the groups from there on.
// A group that no letter is left to join is done, and leaves the path. Nothing is on the heap.
ghost use Rattle.std.specs.Prelude.{◌≡◌, ◌≢◌, ℕ, ◌-◌, ◌<◌, ◌≤◌, Bool, true, false, List, length};
ghost use Rattle.arrayvec.specs.ArrayVec.{array_vec_len};
ghost use Rattle.watch.specs.Letters.{letter_count, most_events};
ghost use Rattle.watch.specs.Watchers.{Watching};
ghost use Rattle.outlook.specs.inner.Tables.{item};
ghost use Rattle.outlook.specs.inner.Showing.{Goes};
ghost use Rattle.outlook.specs.inner.Changes.{stop, standing, cursor, after_letter, after_push, after_note, after_absorb, parent, Dismissed, Joined, Left};

use crate::state::State;
use crate::tables::{MOST_STATES, share};
use arrayvec::ArrayVec;

// How a state stands to the path.
#[derive(Clone, Copy)]
pub(crate) enum Standing {
    // It was never on it.
    New,
    // It is at this place.
    At(u16),
    // It was on it, and left.
    Gone,
}

// What the search has of a state: how it stands to the path, and its next letter.
#[derive(Clone, Copy)]
pub(crate) struct Seat {
    pub(crate) standing: Standing,
    pub(crate) cursor: u16,
}

impl Seat {
    const FREE: Seat = Seat {
        standing: Standing::New,
        cursor: 0,
    };
}

// A state on the path, and the place that was looked at when it came.
#[derive(Clone, Copy, Default)]
pub(crate) struct Stop {
    pub(crate) state: State,
    pub(crate) from: Option<u16>,
}

#[derive(Drop)]
pub(crate) struct Search {
    // The states that are known to come to rest at marks that are good, and at marks that are not. They are tables of
    // their own, and not part of a seat, since an outlook hands them out as such.
    pub(crate) keepable: [bool; MOST_STATES],
    pub(crate) breakable: [bool; MOST_STATES],
    pub(crate) seats: [Seat; MOST_STATES],
    pub(crate) path: ArrayVec<Stop, MOST_STATES>,
    // The first place of each group.
    pub(crate) bounds: ArrayVec<u16, MOST_STATES>,
    // The place that is looked at. It is in the last group, and the states after it have no letter left.
    pub(crate) here: Option<u16>,
}

// The states of the group are gone.
fn dismiss(seats: &mut [Seat; MOST_STATES], group: &[Stop])
    ensures { Dismissed group.now (length group.now) seats.old seats.new }
{
    for stop in group {
        seats[usize::from(stop.state.number)].standing = Standing::Gone;
    }
}

impl Search {
    // A search with nothing on its path.
    pub(crate) fn begin() -> Search
        ensures idle { result.here ≡ None }
        ensures goes { (w : Watching) (good : List Bool) → Goes w good result }
    {
        Search {
            keepable: [false; MOST_STATES],
            breakable: [false; MOST_STATES],
            seats: [Seat::FREE; MOST_STATES],
            path: ArrayVec::new(),
            bounds: ArrayVec::new(),
            here: None,
        }
    }

    // The stop at the place.
    pub(crate) fn stop(&self, place: u16) -> Stop
        requires { place < array_vec_len self.now.path }
        ensures { result ≡ stop self.now place }
    {
        self.path[usize::from(place)]
    }

    // The state at the place, if there is one.
    fn state_at(&self, place: Option<u16>) -> Option<State>
        requires { (p : ℕ) → place ≡ Some p → p < array_vec_len self.now.path }
        ensures { result ≡ parent self.now place }
    {
        place.map(|place| self.stop(place).state)
    }

    // How the state stands to the path.
    pub(crate) fn standing(&self, state: State) -> Standing
        ensures { result ≡ standing self.now state.number }
    {
        self.seats[usize::from(state.number)].standing
    }

    // The next letter of the state.
    pub(crate) fn cursor(&self, state: State) -> u16
        ensures { result ≡ cursor self.now state.number }
    {
        self.seats[usize::from(state.number)].cursor
    }

    // Takes the next letter of the state.
    pub(crate) fn take_letter(&mut self, state: State) -> u16
        requires { cursor self.old state.number < letter_count most_events }
        ensures letter { result ≡ cursor self.old state.number }
        ensures after { self.new ≡ after_letter self.old state.number }
    {
        let letter = self.cursor(state);
        self.seats[usize::from(state.number)].cursor = letter + 1;
        letter
    }

    // Puts a state on the end of the path, in a group of its own.
    pub(crate) fn push(&mut self, state: State)
        requires room { array_vec_len self.old.path < 16384 }
        requires few { array_vec_len self.old.bounds < 16384 }
        ensures { self.new ≡ after_push self.old state }
    {
        // There is room, so the length is a place.
        let end = self.path.len() as u16;
        self.seats[usize::from(state.number)].standing = Standing::At(end);
        self.path.push(Stop {
            state,
            from: self.here,
        });
        self.bounds.push(end);
        self.here = Some(end);
    }

    // The state can come to rest at its own marks, which are good or not.
    pub(crate) fn note(&mut self, state: State, good: bool)
        ensures { self.new ≡ after_note self.old state.number good }
    {
        if good {
            self.keepable[usize::from(state.number)] = true;
        } else {
            self.breakable[usize::from(state.number)] = true;
        }
    }

    // The state can come to all that the other can come to.
    pub(crate) fn absorb(&mut self, state: State, other: State)
        ensures { self.new ≡ after_absorb self.old state.number other.number }
    {
        self.keepable[usize::from(state.number)] |= self.keepable[usize::from(other.number)];
        self.breakable[usize::from(state.number)] |= self.breakable[usize::from(other.number)];
    }

    // Whether the last group begins at the place.
    pub(crate) fn opens(&self, place: u16) -> bool
        requires { 0 < length self.now.bounds.items }
        ensures yes { result ≡ true → item self.now.bounds.items (length self.now.bounds.items - 1) ≡ place }
        ensures no { result ≡ false → item self.now.bounds.items (length self.now.bounds.items - 1) ≢ place }
    {
        self.bounds.last().is_some_and(|bound| *bound == place)
    }

    // Joins the groups that begin after the place to the one that has it.
    pub(crate) fn join(&mut self, place: u16)
        ensures joined { Joined self.old place self.new }
        ensures until { 0 < length self.new.bounds.items → item self.new.bounds.items (length self.new.bounds.items - 1) ≤ place }
    {
        while self.bounds.last().is_some_and(|bound| *bound > place) {
            self.bounds.pop();
        }
    }

    // Takes the last group off the path. All its states can come to what one of them can come to, and so can
    // the state at the place that the group was taken from.
    pub(crate) fn leave(&mut self, first: u16)
        requires under { first < array_vec_len self.old.path }
        requires back { (p : ℕ) → (stop self.old first).from ≡ Some p → p < array_vec_len self.old.path }
        ensures { Left self.old first self.new }
    {
        let from = self.stop(first).from;
        let parent = self.state_at(from);
        let group = &self.path[usize::from(first)..];
        share(&mut self.keepable, group, parent);
        share(&mut self.breakable, group, parent);
        dismiss(&mut self.seats, group);
        self.path.truncate(usize::from(first));
        self.bounds.pop();
        self.here = from;
    }
}

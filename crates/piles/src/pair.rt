// The pair: two watchers that start and step together.
ghost use Rattle.std.specs.Prelude.{◌≡◌, ◌+◌, ◌*◌, ◌/◌, ◌%◌, ◌^◌, ◌<◌, ◌≤◌, ◌&&◌, ◌==◌, nat_le};
ghost use Rattle.watch.specs.Following.{Follows};
ghost use Rattle.watch.specs.Watchers.{most_states, most_marks};
ghost use Rattle.piles.specs.Refusals.{Answers};
ghost use Rattle.piles.specs.Pairs.{pair, fits_pair, Sides, Joined};
ghost use Rattle.piles.specs.PairsLemmas.{pair_lawful};

use crate::halves::Halves;
use crate::refusal::Refusal;
use crate::stub::stub_sizes;
use watch::{MOST_MARKS, MOST_STATES, MarkSet, Passed, Sizes, Watcher, follow};

#[derive(Drop)]
pub struct Pair<A, B> {
    first: A,
    second: B,
}

// Whether watchers of these sizes can be joined.
fn keeps_limits(first: Sizes, second: Sizes) -> bool
    ensures { result ≡ (first.events == second.events) && nat_le (first.marks + second.marks) most_marks && nat_le (first.states * second.states) most_states }
{
    first.events == second.events
        && u16::from(first.marks) + u16::from(second.marks) <= u16::from(MOST_MARKS)
        && u32::from(first.states) * u32::from(second.states) <= u32::from(MOST_STATES)
}

impl<A: Watcher, B: Watcher> Pair<A, B> {
    // The sizes of these two, if they can be joined.
    fn halves_of(first: &A, second: &B) -> Option<Halves>
        ensures { Sides (A.watching first.now) (B.watching second.now) result }
    {
        let first = first.sizes();
        let second = second.sizes();
        // Not by `then`: its closure would have to be told that the limits are kept.
        if !keeps_limits(first, second) {
            return None;
        }
        Some(Halves { first, second })
    }

    // Whether these two watchers can be joined.
    pub fn fits(first: &A, second: &B) -> Result<(), Refusal>
        ensures { Answers (fits_pair (A.watching first.now) (B.watching second.now)) result }
    {
        Self::halves_of(first, second)
            .map(|_| ())
            .ok_or(Refusal::Limits)
    }

    pub fn new(first: A, second: B) -> Pair<A, B>
        ensures first { result.first ≡ first }
        ensures second { result.second ≡ second }
        ensures joined { Joined (A.watching first) (B.watching second) }
    {
        Pair { first, second }
    }

    // Follows the pair along the letters, as `watch::follow` does. What is followed is the pair of the two watchers;
    // a method that the trait provides would say it of `watching self`, which a reader would have to look up.
    pub fn follow(&self, letters: &[u16], stands: &mut [Passed]) -> Result<MarkSet, usize>
        ensures { Follows (pair (A.watching self.now.first) (B.watching self.now.second)) letters.now stands.old stands.new result }
    {
        follow(self, letters, stands)
    }

    // The sizes of the two, unless this pair is the stub.
    fn halves(&self) -> Option<Halves>
        ensures { Sides (A.watching self.now.first) (B.watching self.now.second) result }
    {
        Self::halves_of(&self.first, &self.second)
    }
}

impl<A: Watcher, B: Watcher> Watcher for Pair<A, B> {
    ghost watching = { λ p. pair (A.watching p.first) (B.watching p.second) };

    ghost lawful = { λ p. pair_lawful (A.watching p.first) (B.watching p.second) (A.lawful p.first) (B.lawful p.second) };

    // Each of the two is asked once, whatever it is: a stub may stand on stubs.
    fn sizes(&self) -> Sizes {
        let first = self.first.sizes();
        let second = self.second.sizes();
        if !keeps_limits(first, second) {
            return stub_sizes(first);
        }
        Halves { first, second }.joined()
    }

    fn start(&self) -> u16 {
        let Some(halves) = self.halves() else {
            return 0;
        };
        halves.join(self.first.start(), self.second.start())
    }

    fn next(&self, state: u16, letter: u16) -> u16 {
        let Some(halves) = self.halves() else {
            return 0;
        };
        let joined = halves.joined();
        if state >= joined.states || letter >= joined.letters {
            return self.start();
        }
        let (s, t) = halves.split(state);
        halves.join(self.first.next(s, letter), self.second.next(t, letter))
    }

    fn shown(&self, state: u16) -> MarkSet {
        match self.halves() {
            Some(halves) if state < halves.joined().states => {
                let (s, t) = halves.split(state);
                halves.beside(self.first.shown(s), self.second.shown(t))
            }
            _ => MarkSet::EMPTY,
        }
    }
}

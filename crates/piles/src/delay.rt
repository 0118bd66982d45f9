// The delay: a watcher over another one that lets the first steps pass unseen.
ghost use Rattle.std.specs.Prelude.{◌≡◌, ◌+◌, ◌&&◌, nat_le};
ghost use Rattle.watch.specs.Following.{Follows};
ghost use Rattle.watch.specs.Watchers.{most_states};
ghost use Rattle.piles.specs.Refusals.{Answers};
ghost use Rattle.piles.specs.Delays.{delay, fits_delay, most_steps, Under, Unseen};
ghost use Rattle.piles.specs.DelaysLemmas.{delay_lawful};

use crate::refusal::Refusal;
use crate::stub::stub_sizes;
use watch::{MOST_STATES, MarkSet, Passed, Sizes, Watcher, follow};

// The most steps that a delay can let pass.
const MOST_STEPS: u16 = 1000;

#[derive(Drop)]
pub struct Delay<W> {
    below: W,
    steps: u16,
}

// Whether a delay by so many steps over so many states keeps its limits.
fn keeps_limits(states: u16, steps: u16) -> bool
    ensures { result ≡ nat_le 1 steps && nat_le steps most_steps && nat_le (states + steps) most_states }
{
    (1..=MOST_STEPS).contains(&steps)
        && u32::from(states) + u32::from(steps) <= u32::from(MOST_STATES)
}

impl<W: Watcher> Delay<W> {
    // Whether a delay by so many steps over this watcher keeps its limits.
    pub fn fits(below: &W, steps: u16) -> Result<(), Refusal>
        ensures { Answers (fits_delay (W.watching below.now) steps) result }
    {
        keeps_limits(below.sizes().states, steps)
            .then_some(())
            .ok_or(Refusal::Limits)
    }

    pub fn new(below: W, steps: u16) -> Delay<W>
        ensures below { result.below ≡ below }
        ensures steps { result.steps ≡ steps }
        ensures unseen { Unseen (W.watching below) steps }
    {
        Delay { below, steps }
    }

    // Follows the delay along the letters, as `watch::follow` does. What is followed is the delay of the watcher below;
    // a method that the trait provides would say it of `watching self`, which a reader would have to look up.
    pub fn follow(&self, letters: &[u16], stands: &mut [Passed]) -> Result<MarkSet, usize>
        ensures { Follows (delay (W.watching self.now.below) self.now.steps) letters.now stands.old stands.new result }
    {
        follow(self, letters, stands)
    }

    // The sizes below, unless this delay is the stub.
    fn under(&self) -> Option<Sizes>
        ensures { Under (W.watching self.now.below) self.now.steps result }
    {
        let sizes = self.below.sizes();
        keeps_limits(sizes.states, self.steps).then_some(sizes)
    }
}

impl<W: Watcher> Watcher for Delay<W> {
    ghost watching = { λ d. delay (W.watching d.below) d.steps };

    ghost lawful = { λ d. delay_lawful (W.watching d.below) d.steps (W.lawful d.below) };

    // The watcher below is asked once, whatever it is: a stub may stand on stubs.
    fn sizes(&self) -> Sizes {
        let below = self.below.sizes();
        if !keeps_limits(below.states, self.steps) {
            return stub_sizes(below);
        }
        Sizes {
            states: below.states + self.steps,
            ..below
        }
    }

    fn start(&self) -> u16 {
        self.under().map_or(0, |below| below.states)
    }

    fn next(&self, state: u16, letter: u16) -> u16 {
        let Some(below) = self.under() else {
            return 0;
        };
        let seen = below.states + self.steps;
        if letter >= below.letters {
            below.states
        } else if state < below.states {
            self.below.next(state, letter)
        } else if state >= seen {
            below.states
        } else if state + 1 < seen {
            state + 1
        } else {
            self.below.start()
        }
    }

    fn shown(&self, state: u16) -> MarkSet {
        match self.under() {
            Some(below) if state < below.states => self.below.shown(state),
            _ => MarkSet::EMPTY,
        }
    }
}

// Watchers over five events that are computed by a formula, with any number of states.
ghost use Rattle.std.specs.Prelude.{◌≡◌, ◌+◌, ◌*◌, ◌%◌, ◌<◌, ◌≤◌, if◌then◌else◌, MatchOption, nat_lt};
ghost use Rattle.watch.specs.Watchers.{most_states};
ghost use Rattle.bench_monitor.specs.Computing.{computed, onward, resting};
ghost use Rattle.bench_monitor.specs.ComputingLemmas.{computed_lawful};

use crate::shape::Shape;
use watch::{MOST_EVENTS, MOST_STATES, MarkSet, Sizes, Watcher};

const EVENTS: u8 = MOST_EVENTS;

const LETTERS: u16 = 243;

const LAST_LETTER: u16 = LETTERS - 1;

const LEAST_STATES: u16 = 3;

// A state that stays shows mark 1. The shape is an enum and no closure: an argument of the program names it, and what
// is proved of a watcher is proved shape by shape.
#[derive(Clone, Copy)]
pub struct Computed {
    shape: Shape,
    states: u16,
    ghost sized: { (3 ≤ states) × (states ≤ most_states) },
}

// A state and a letter, mixed into a number below `count`.
fn mixed(state: u16, letter: u16, count: u16) -> u16
    requires few { (state < 16384) × (letter < 243) }
    requires some { 0 < count }
    ensures { result ≡ (state * 7 + letter * 13 + 1) % count }
{
    let number = u32::from(state) * 7 + u32::from(letter) * 13 + 1;
    (number % u32::from(count)) as u16
}

// One towards the last state.
fn risen(state: u16, last: u16) -> u16
    requires { last < 16384 }
    ensures { result ≡ (if nat_lt state last then state + 1 else state) }
{
    if state < last { state + 1 } else { state }
}

impl Computed {
    // A watcher of this shape, where so many states make one.
    pub fn new(shape: Shape, states: u16) -> Option<Computed>
        ensures { MatchOption result ((3 ≤ states) × (states ≤ most_states) → ⊥) (λ w. (w.shape ≡ shape) × (w.states ≡ states)) }
    {
        // Not by `then`: its closure would have to be told what was asked.
        if !(LEAST_STATES..=MOST_STATES).contains(&states) {
            return None;
        }
        Some(Computed { shape, states })
    }

    // Where a letter leads from a state.
    fn onward(self, state: u16, letter: u16) -> u16
        requires { (state < self.states) × (letter < 243) }
        ensures { result ≡ onward self.shape self.states state letter }
    {
        let last = self.states - 1;
        match self.shape {
            Shape::Up => risen(state, last),
            Shape::Down => state.saturating_sub(1),
            Shape::Round => if state == last { 0 } else { state + 1 },
            Shape::Back => if letter == LAST_LETTER && state < last {
                state.saturating_sub(1)
            } else {
                risen(state, last)
            },
            Shape::Mixed => mixed(state, letter, self.states),
            Shape::Late => if state == last || letter == LAST_LETTER && state + 2 >= last {
                risen(state, last)
            } else {
                mixed(state, letter, last - 1)
            },
        }
    }

    // Whether the state stays, whatever comes.
    fn rests(self, state: u16) -> bool
        ensures { result ≡ resting self.shape self.states state }
    {
        match self.shape {
            Shape::Up | Shape::Back | Shape::Late => state == self.states - 1,
            Shape::Down => state == 0,
            Shape::Round | Shape::Mixed => false,
        }
    }
}

impl Watcher for Computed {
    ghost watching = { λ w. computed w.shape w.states };

    ghost lawful = { λ w. computed_lawful w.shape w.states w.sized.0 w.sized.1 };

    fn sizes(&self) -> Sizes {
        Sizes {
            states: self.states,
            events: EVENTS,
            letters: LETTERS,
            marks: 1,
        }
    }

    fn start(&self) -> u16 {
        0
    }

    fn next(&self, state: u16, letter: u16) -> u16 {
        if state >= self.states || letter >= LETTERS {
            return 0;
        }
        self.onward(state, letter)
    }

    fn shown(&self, state: u16) -> MarkSet {
        let stays = state < self.states && self.rests(state);
        MarkSet {
            bits: u8::from(stays),
        }
    }
}

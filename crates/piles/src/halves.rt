// The two halves of a pair: their sizes, and how their states and marks are joined.
ghost use Rattle.std.specs.Prelude.{◌≡◌, ◌+◌, ◌*◌, ◌/◌, ◌%◌, ◌^◌, ◌<◌, ◌≤◌};
ghost use Rattle.watch.specs.Watchers.{most_states, most_marks};

use watch::{MarkSet, Sizes};

// The sizes of two watchers that can be joined.
#[derive(Clone, Copy)]
pub struct Halves {
    pub(crate) first: Sizes,
    pub(crate) second: Sizes,
    ghost few_marks: { first.marks + second.marks ≤ most_marks },
    ghost few_states: { first.states * second.states ≤ most_states },
    ghost some_mark: { 1 ≤ second.marks },
    ghost some_state: { 1 ≤ second.states },
}

impl Halves {
    // The sizes of the pair.
    pub(crate) fn joined(self) -> Sizes
        ensures { result ≡ record self.first { states = self.first.states * self.second.states; marks = self.first.marks + self.second.marks } }
    {
        Sizes {
            states: self.first.states * self.second.states,
            marks: self.first.marks + self.second.marks,
            ..self.first
        }
    }

    // The two states that a pair's state number stands for.
    pub(crate) fn split(self, state: u16) -> (u16, u16)
        ensures { (result.0 ≡ state / self.second.states) × (result.1 ≡ state % self.second.states) }
    {
        (state / self.second.states, state % self.second.states)
    }

    // The number of the pair's state that stands for these two.
    pub(crate) fn join(self, first: u16, second: u16) -> u16
        requires { (first < self.first.states) × (second < self.second.states) }
        ensures { result ≡ first * self.second.states + second }
    {
        first * self.second.states + second
    }

    // The marks of both: the first's, and then the second's.
    pub(crate) fn beside(self, first: MarkSet, second: MarkSet) -> MarkSet
        requires first { first.bits < 2 ^ self.first.marks }
        requires second { second.bits < 2 ^ self.second.marks }
        ensures { result.bits ≡ first.bits + second.bits * 2 ^ self.first.marks }
    {
        MarkSet {
            bits: first.bits + (second.bits << self.first.marks),
        }
    }
}

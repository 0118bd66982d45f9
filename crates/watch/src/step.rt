// A step by what each event does in it, and its letter.
ghost use Rattle.std.specs.Prelude.{◌≡◌, ◌<◌, length, map};
ghost use Rattle.watch.specs.Letters.{letter_count, most_events};
ghost use Rattle.watch.specs.declared.step.Step.{Step};
ghost use Rattle.watch.specs.Steps.{digit, digit_of, digits_of, spelt, step_digits};

use crate::kind::Kind;
use crate::letters::{DIGITS, MOST_EVENTS};
use std::array;

// How many events a step has room for.
pub const PLACES: usize = MOST_EVENTS as usize;

// What an event's digit counts for in a letter.
const WEIGHTS: &[u16] = &[
    1,
    DIGITS,
    DIGITS * DIGITS,
    DIGITS * DIGITS * DIGITS,
    DIGITS * DIGITS * DIGITS * DIGITS,
];

// What an event with each digit does. A table, since a `match` on what nobody can foresee takes more than a third of a closing's time.
const KINDS: [Option<Kind>; DIGITS as usize] = [None, Some(Kind::Starting), Some(Kind::Ongoing)];

// What each event does; an event without a kind is absent.
#[derive(Clone, Copy, PartialEq, Eq, Debug)]
pub struct Step {
    pub kinds: [Option<Kind>; PLACES],
}

// The digit of an event that does this, or is absent.
fn digit_of(kind: Option<Kind>) -> u16
    ensures { result ≡ digit_of kind }
{
    kind.map_or(0, |kind| kind as u16)
}

// What the event does in a step with this letter.
fn kind_at(letter: u16, event: usize) -> Option<Kind>
    requires { event < most_events }
    ensures { digit_of result ≡ digit letter event }
{
    KINDS[usize::from(letter / WEIGHTS[event] % DIGITS)]
}

// What each event does in a step with this letter.
fn kinds_of(letter: u16) -> [Option<Kind>; PLACES]
    ensures { map digit_of result ≡ digits_of letter }
{
    array::from_fn(|event| kind_at(letter, event))
}

impl Step {
    // The step in which every event is absent.
    pub const QUIET: Step = Step {
        kinds: [None; PLACES],
    };

    // The step that has this letter. Each step comes back from its own letter, and each letter over so many events from its own step.
    pub fn of(letter: u16) -> Step
        ensures digits { step_digits result ≡ digits_of letter }
        ensures back { (step : Step) → length step.kinds ≡ most_events → letter ≡ spelt (step_digits step) → result ≡ step }
        ensures spells { letter < letter_count most_events → spelt (step_digits result) ≡ letter }
    {
        Step {
            kinds: kinds_of(letter),
        }
    }

    pub fn letter(self) -> u16
        ensures { result ≡ spelt (step_digits self) }
    {
        let mut letter = 0;
        for kind in self.kinds.iter().rev() {
            letter = letter * DIGITS + digit_of(*kind);
        }
        letter
    }
}

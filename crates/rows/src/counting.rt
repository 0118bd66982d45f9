// Tests and counts in a step, over the sets of declared events that their patterns match. A set and a step go through all of
// them; a struct of the two would live for one call.
ghost use Rattle.std.specs.Prelude.{◌≡◌, ◌≤◌, ◌&&◌};
ghost use Rattle.watch.specs.Steps.{digit_of, step_digits};
ghost use Rattle.rows.specs.Stepping.{means, tally, truth, absent, number as count_in};

use osl::{Count, EventSet, Test};
use watch::{Kind, Step};

// Which doings of an event are meant. An enum and no closure: the specs speak of the same two.
#[derive(Clone, Copy)]
pub(crate) enum Doing {
    Starting,
    StartingOrOngoing,
}

impl Doing {
    // Whether an event that does this, or is absent, does what is meant.
    fn is_meant(self, kind: Option<Kind>) -> bool
        ensures { result ≡ means self (digit_of kind) }
    {
        match self {
            Doing::Starting => kind == Some(Kind::Starting),
            Doing::StartingOrOngoing => kind.is_some(),
        }
    }

    // Whether an event counts that is chosen or not, and does this or is absent.
    fn counts(self, chosen: bool, kind: Option<Kind>) -> bool
        ensures { result ≡ chosen && means self (digit_of kind) }
    {
        chosen && self.is_meant(kind)
    }
}

// How many events of the set do so in the step: each counts once. A sum, since a `filter` would jump at each event.
fn count(set: &EventSet, doing: Doing, step: &Step) -> u16
    ensures value { result ≡ tally doing set.now.flags (step_digits step.now) }
    ensures bound { result ≤ 5 }
{
    let mut total = 0;
    for (event, chosen) in set.flags.iter().enumerate() {
        total += u16::from(doing.counts(*chosen, step.kinds[event]));
    }
    total
}

// Whether the test holds in the step, its pattern matching the events of the set.
pub(crate) fn holds(test: &Test, set: &EventSet, step: &Step) -> bool
    ensures { result ≡ truth test.now set.now (step_digits step.now) }
{
    match test {
        Test::True => true,
        Test::False => false,
        Test::First(_) => count(set, Doing::Starting, step) > 0,
        Test::Any(_) => count(set, Doing::StartingOrOngoing, step) > 0,
        Test::NoFirst(_) => count(set, Doing::Starting, step) == 0,
        Test::NoAny(_) => count(set, Doing::StartingOrOngoing, step) == 0,
    }
}

// Whether no event of the set is starting or ongoing.
pub(crate) fn is_absent(set: &EventSet, step: &Step) -> bool
    ensures { result ≡ absent set.now (step_digits step.now) }
{
    count(set, Doing::StartingOrOngoing, step) == 0
}

// What is counted in the step.
pub(crate) fn number(counted: &Count, set: &EventSet, step: &Step) -> u16
    ensures value { result ≡ count_in counted.now set.now (step_digits step.now) }
    ensures bound { result ≤ 5 }
{
    match counted {
        Count::First(_) => count(set, Doing::Starting, step),
        Count::Any(_) => count(set, Doing::StartingOrOngoing, step),
    }
}

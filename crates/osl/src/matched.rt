// Which declared events a row speaks of. Names are compared here, once; stepping then only looks at the sets.
ghost use Rattle.std.specs.Prelude.{◌≡◌};
ghost use Rattle.osl.specs.Matching.{matches as matching};
ghost use Rattle.osl.specs.Resolving.{set_of, no_events, test_set, count_set, matched_by};

use crate::choosing::EventSet;
use crate::event::{Event, Pattern};
use crate::row::{Count, Row, Test};

// The events that the row's first test, its count or its permit speaks of, and those that its second test does.
#[derive(Clone, Copy)]
pub struct Matched {
    pub first: EventSet,
    pub second: EventSet,
}

impl Pattern {
    fn matched(&self, events: &[Event]) -> EventSet
        ensures { result ≡ set_of (matching self.now) events.now }
    {
        EventSet::of(events, |event| self.matches(event))
    }
}

impl Test {
    fn matched(&self, events: &[Event]) -> EventSet
        ensures { result ≡ test_set events.now self.now }
    {
        match self.pattern() {
            None => EventSet::NONE,
            Some(pattern) => pattern.matched(events),
        }
    }
}

impl Count {
    fn matched(&self, events: &[Event]) -> EventSet
        ensures { result ≡ count_set events.now self.now }
    {
        self.pattern().matched(events)
    }
}

impl Matched {
    // Where there is no second test.
    fn by_one(set: EventSet) -> Matched
        ensures { result ≡ record { first = set; second = no_events } }
    {
        Matched {
            first: set,
            second: EventSet::NONE,
        }
    }
}

impl Row {
    pub fn matched(&self, events: &[Event]) -> Matched
        ensures { result ≡ matched_by events.now self.now }
    {
        match self {
            Row::Until(a, b) | Row::Answer(_, a, b) => Matched {
                first: a.matched(events),
                second: b.matched(events),
            },
            Row::Always(a) | Row::After(_, a) | Row::Within(_, a) | Row::During(_, a) => {
                Matched::by_one(a.matched(events))
            }
            Row::Most(_, counted) => Matched::by_one(counted.matched(events)),
            Row::MostUntil(_, counted, until) => Matched {
                first: counted.matched(events),
                second: until.matched(events),
            },
            // Two types of permits, so two arms.
            Row::Names(permit) => {
                Matched::by_one(EventSet::of(events, |event| permit.forbids(event)))
            }
            Row::Values(permit) => {
                Matched::by_one(EventSet::of(events, |event| permit.forbids(event)))
            }
        }
    }
}

// Sets of declared events.
ghost use Rattle.std.specs.Prelude.{◌≡◌, false, slice_get};
ghost use Rattle.std.specs.Option.{option_map_or};
ghost use Rattle.osl.specs.Resolving.{set_of, no_events};
ghost use Rattle.osl.specs.inner.Closures.{Answers};

use crate::event::Event;
use std::array;
use watch::PLACES;

// A set of declared events: event i is in it where flag i is set. An array, since making a monitor and stepping it never allocate.
#[derive(Clone, Copy)]
pub struct EventSet {
    pub flags: [bool; PLACES],
}

// Whether there is an event at the place, and the closure chooses it.
fn is_chosen<F: Fn(&Event) -> bool>(events: &[Event], place: usize, chooses: &F) -> bool
    requires { F.IsAlwaysCallable chooses.now }
    ensures { (test : _) → Answers (F.post chooses.now) test → result ≡ option_map_or test (slice_get events.now place) false }
{
    events.get(place).is_some_and(|event| chooses(event))
}

impl EventSet {
    pub const NONE: EventSet = EventSet {
        flags: [false; PLACES],
    };

    // The events that the closure chooses, of those that have a place.
    pub(crate) fn of<F: Fn(&Event) -> bool>(events: &[Event], chooses: F) -> EventSet
        requires { F.IsAlwaysCallable chooses }
        ensures { (test : _) → Answers (F.post chooses) test → result ≡ set_of test events.now }
    {
        EventSet {
            flags: array::from_fn(|place| is_chosen(events, place, &chooses)),
        }
    }
}

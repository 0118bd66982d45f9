// What is asked of the declared events beside each other.
ghost use Rattle.std.specs.Prelude.{◌≡◌};
ghost use Rattle.limits.specs.Events.{events_clash, params_clash, params_once, events_apart};

use osl::{Event, Param};
use text::{Compares, are_apart};

// Are the two events the same, or have they one name and two classes?
#[derive(Drop)]
struct EventsClash;

impl Compares<Event> for EventsClash {
    ghost compares = { λ _ e d. events_clash e d };

    fn compare(&self, a: &Event, b: &Event) -> bool {
        a.is(b) || (a.name == b.name && a.class != b.class)
    }
}

// Have the two parameters one name?
#[derive(Drop)]
struct ParamsClash;

impl Compares<Param> for ParamsClash {
    ghost compares = { λ _ p q. params_clash p q };

    fn compare(&self, a: &Param, b: &Param) -> bool {
        a.name == b.name
    }
}

// Whether the event names no parameter twice.
fn are_params_named_once(event: &Event) -> bool
    ensures { result ≡ params_once event.now }
{
    are_apart(&event.params, &ParamsClash)
}

// Whether no two events clash, and none names a parameter twice.
pub(crate) fn do_events_differ(events: &[Event]) -> bool
    ensures { result ≡ events_apart events.now }
{
    are_apart(events, &EventsClash) && events.iter().all(are_params_named_once)
}

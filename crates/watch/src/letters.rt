// Letters: what the events of one step do, as one number.
//
// In a step (an hour) each event is absent, starting or ongoing, which is its digit 0, 1 or 2.
// The step's letter is the sum of digit × DIGITS^e over the events e.
ghost use Rattle.std.specs.Prelude.{◌≡◌, ◌<◌, ◌≤◌, MatchOption};
ghost use Rattle.watch.specs.Letters.{letter_count, most_events};

// How many digits there are.
pub const DIGITS: u16 = 3;

// The most events that a step can have.
pub const MOST_EVENTS: u8 = 5;

// How many letters there are over so many events, or nothing where there are too many events.
pub fn letter_count(events: u8) -> Option<u16>
    ensures { MatchOption result (most_events < events) (λ n. (events ≤ most_events) × (n ≡ letter_count events)) }
{
    (events <= MOST_EVENTS).then(|| DIGITS.pow(u32::from(events)))
}

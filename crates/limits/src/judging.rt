// The questions one after another.
ghost use Rattle.std.specs.Prelude.{◌≡◌, ◌<◌, ◌≤◌, ◌&&◌, MatchOption, nat_le};
ghost use Rattle.watch.specs.Letters.{most_events};
ghost use Rattle.watch.specs.Watchers.{most_marks, most_states};
ghost use Rattle.expression.specs.Expressions.{formula};
ghost use Rattle.limits.specs.Questions.{judged, product, says, term_within};

use crate::declaring::is_row_declared;
use crate::events::do_events_differ;
use crate::forms::{is_event_formed, is_row_formed, is_row_free, is_row_in_range};
use crate::refusal::Refusal;
use expression::{Expression, Token};
use osl::{Event, PLACES, Row};
use rows::states;
use watch::{MOST_MARKS, MOST_STATES};

fn are_counts_lawful(events: usize, rows: usize) -> bool
    ensures { result ≡ (nat_le 1 events && nat_le events most_events && nat_le 1 rows && nat_le rows most_marks) }
{
    (1..=PLACES).contains(&events) && (1..=usize::from(MOST_MARKS)).contains(&rows)
}

// Whether the token is no term, or the number of a row.
fn is_term_within(rows: usize, token: &Token) -> bool
    ensures { result ≡ term_within rows token.now }
{
    match token {
        // No `From` takes a number of 32 bits to a `usize`.
        Token::Term(term) => 1 <= *term && *term as usize <= rows,
        _ => true,
    }
}

// How many states the rows have together, unless these are too many. The product is not formed any further then.
pub fn state_count(rows: &[Row]) -> Option<u16>
    ensures { MatchOption result (most_states < product rows.now) (λ n. (n ≡ product rows.now) × (n ≤ most_states)) }
{
    let mut product: u64 = 1;
    for row in rows {
        product *= u64::from(states(row));
        if product > u64::from(MOST_STATES) {
            return None;
        }
    }
    // It is no more than `MOST_STATES`, so there is no failure that `try_from` could tell of.
    Some(product as u16)
}

// The questions in their order.
const ASKED: [Refusal; 8] = [
    Refusal::Counts,
    Refusal::Form,
    Refusal::Range,
    Refusal::Events,
    Refusal::Undeclared,
    Refusal::Fixed,
    Refusal::Terms,
    Refusal::States,
];

impl Refusal {
    // Whether these parts of a sheet answer the question with yes.
    fn says(self, events: &[Event], rows: &[Row], keep: &Expression) -> bool
        ensures { result ≡ says self events.now rows.now (formula keep.now) }
    {
        match self {
            Refusal::Counts => are_counts_lawful(events.len(), rows.len()),
            Refusal::Form => {
                events.iter().all(is_event_formed) && rows.iter().all(is_row_formed)
            }
            Refusal::Range => rows.iter().all(is_row_in_range),
            Refusal::Events => do_events_differ(events),
            Refusal::Undeclared => rows.iter().all(|row| is_row_declared(events, row)),
            Refusal::Fixed => rows.iter().all(is_row_free),
            Refusal::Terms => keep
                .tokens()
                .iter()
                .all(|token| is_term_within(rows.len(), token)),
            Refusal::States => state_count(rows).is_some(),
        }
    }
}

// The first question that says no of these parts of a sheet, if one does. An `Option`, as `find` answers it; who makes a sheet
// turns it into an error.
pub fn judge(events: &[Event], rows: &[Row], keep: &Expression) -> Option<Refusal>
    ensures { result ≡ judged events.now rows.now (formula keep.now) }
{
    ASKED
        .iter()
        .find(|question| !question.says(events, rows, keep))
        .copied()
}

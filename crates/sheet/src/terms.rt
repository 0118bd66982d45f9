// The terms of a sheet: its events, and its rows step by step, as one. A state has a digit for each row, in which the first
// row is the lowest.
ghost use Rattle.std.specs.Prelude.{◌≡◌, None, Some, MatchResult, slice_get};
ghost use Rattle.std.specs.Option.{option_map_or};
ghost use Rattle.watch.specs.Sizes.{sizes_of};
ghost use Rattle.watch.specs.Steps.{step_digits};
ghost use Rattle.watch.specs.Watchers.{most_marks};
ghost use Rattle.osl.specs.Resolving.{matched_by};
ghost use Rattle.expression.specs.Expressions.{formula};
ghost use Rattle.limits.specs.Questions.{judged};
ghost use Rattle.sheet.specs.Joints.{joint, marks_at, matched_all, nothing, watched};
ghost use Rattle.sheet.specs.Bounds.{Bounds};

use expression::Expression;
use limits::{Refusal, judge, state_count};
use osl::{Event, EventSet, Matched, Row};
use rows::{next, shows, states};
use std::array;
use watch::{MOST_MARKS, MarkSet, Sizes, Step, letter_count};

// How many rows a sheet has room for.
pub(crate) const PLACES: usize = MOST_MARKS as usize;

// Where there is no row.
const NOTHING: Matched = Matched {
    first: EventSet::NONE,
    second: EventSet::NONE,
};

// The events and rows of a sheet, within the limits of a watcher.
#[derive(Clone, Copy)]
pub struct Terms<'a> {
    pub(crate) events: &'a [Event],
    pub(crate) rows: &'a [Row],
    ghost within: { Bounds events.now rows.now },
}

impl<'a> Terms<'a> {
    // These events and rows, or the first question that says no of them and what is kept.
    pub(crate) fn judged(
        events: &'a [Event],
        rows: &'a [Row],
        keep: &Expression,
    ) -> Result<Terms<'a>, Refusal>
        ensures { MatchResult result (λ t. (judged events.now rows.now (formula keep.now) ≡ None) × (t.events.now ≡ events.now) × (t.rows.now ≡ rows.now)) (λ refusal. judged events.now rows.now (formula keep.now) ≡ Some refusal) }
    {
        // What `judge` finds is the error here, so neither `ok_or` nor `?` fits.
        match judge(events, rows, keep) {
            None => Ok(Terms { events, rows }),
            Some(refusal) => Err(refusal),
        }
    }

    // The sizes of the watcher.
    pub(crate) fn sizes(self) -> Sizes
        ensures { result ≡ sizes_of (watched self.entry.events.now self.entry.rows.now) }
    {
        // The limits say that both lengths fit, so there is no failure that `try_from` could tell of.
        let events = self.events.len() as u8;
        let (Some(states), Some(letters)) = (state_count(self.rows), letter_count(events)) else {
            unreachable!()
        };
        Sizes {
            states,
            events,
            letters,
            marks: self.rows.len() as u8,
        }
    }

    // What the row at the place speaks of: nothing where there is none.
    fn matched_at(self, place: usize) -> Matched
        ensures { result ≡ option_map_or (matched_by self.entry.events.now) (slice_get self.entry.rows.now place) nothing }
    {
        self.rows
            .get(place)
            .map_or(NOTHING, |row| row.matched(self.events))
    }

    // What each row speaks of.
    pub(crate) fn matched(self) -> [Matched; PLACES]
        ensures { result ≡ matched_all self.entry.events.now most_marks self.entry.rows.now }
    {
        array::from_fn(|place| self.matched_at(place))
    }

    // The next state of all rows together.
    pub(crate) fn next(self, matched: &[Matched; PLACES], step: &Step, state: u16) -> u16
        ensures { result ≡ joint self.entry.rows.now matched.now (step_digits step.now) state }
    {
        let mut rest = u32::from(state);
        let mut weight = 1;
        let mut sum = 0;
        for (row, own) in self.rows.iter().zip(matched) {
            let count = states(row);
            sum += weight * next(row, own, step, rest % count);
            rest /= count;
            weight *= count;
        }
        // The rows have few states together, so the sum fits.
        sum as u16
    }

    // The marks that a state shows. It takes the state apart as `next` does, but one loop for both would need a closure for what
    // is summed, and the bounds of either sum.
    pub(crate) fn marks(self, state: u16) -> MarkSet
        ensures { result.bits ≡ marks_at self.entry.rows.now state }
    {
        let mut rest = u32::from(state);
        let mut bit: u16 = 1;
        let mut sum: u16 = 0;
        for row in self.rows {
            let count = states(row);
            sum += bit * u16::from(shows(row, rest % count));
            rest /= count;
            bit *= 2;
        }
        // There are few rows, so the sum fits.
        MarkSet { bits: sum as u8 }
    }
}

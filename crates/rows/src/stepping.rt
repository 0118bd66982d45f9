// A row step by step.
ghost use Rattle.std.specs.Prelude.{◌≡◌, ◌<◌, ◌≤◌, List, ◌==◌};
ghost use Rattle.osl.specs.declared.event.Event.{Event};
ghost use Rattle.watch.specs.Steps.{step_digits};
ghost use Rattle.rows.specs.Stepping.{moved, broken, states as state_count};
ghost use Rattle.rows.specs.Meaning.{Declared, Lawful, RowMeansItsFormula};

use crate::counting::{holds, is_absent, number};
use crate::moves::{after_move, answer_move, during_move, most_move, until_move, within_move};
use osl::{Matched, Row};
use watch::Step;

// How many states the row has: a line for each row, as the table of rows has it.
pub fn states(row: &Row) -> u32
    ensures { result ≡ state_count row.now }
{
    match row {
        Row::Until(_, _) => 3,
        Row::Always(_) => 3,
        Row::After(n, _) => u32::from(*n) + 3,
        Row::Within(n, _) => u32::from(*n) + 2,
        Row::During(n, _) => u32::from(*n) + 2,
        Row::Most(l, _) => u32::from(*l) + 3,
        Row::MostUntil(l, _, _) => u32::from(*l) + 3,
        Row::Answer(n, _, _) => u32::from(*n) + 1,
        Row::Names(_) => 3,
        Row::Values(_) => 3,
    }
}

// Whether the state shows that the row is broken: the last one does.
pub fn shows(row: &Row, state: u32) -> bool
    ensures { result ≡ (state == broken row.now) }
{
    state == states(row) - 1
}

fn move_on(row: &Row, matched: &Matched, step: &Step, state: u32) -> u32
    ensures { result ≡ moved row.now matched.now (step_digits step.now) state }
{
    let first = &matched.first;
    let second = &matched.second;
    match row {
        Row::Until(a, b) => until_move(holds(a, first, step), holds(b, second, step), state),
        Row::Always(a) => until_move(holds(a, first, step), false, state),
        Row::After(n, a) => after_move(*n, holds(a, first, step), state),
        Row::Within(n, a) => within_move(*n, holds(a, first, step), state),
        Row::During(n, a) => during_move(*n, holds(a, first, step), state),
        Row::Most(l, c) => most_move(*l, number(c, first, step), false, state),
        Row::MostUntil(l, c, b) => {
            most_move(*l, number(c, first, step), holds(b, second, step), state)
        }
        Row::Answer(n, a, b) => {
            answer_move(*n, holds(a, first, step), holds(b, second, step), state)
        }
        Row::Names(_) | Row::Values(_) => until_move(is_absent(first, step), false, state),
    }
}

// The next state in a step, the row speaking of the matched events. On every run the row is then broken at some step
// exactly if its formula is false of the run at step 0.
pub fn next(row: &Row, matched: &Matched, step: &Step, state: u32) -> u32
    ensures next { result ≡ moved row.now matched.now (step_digits step.now) state }
    ensures means { (events : List Event) → Declared events → Lawful row.now → RowMeansItsFormula events row.now }
{
    move_on(row, matched, step, state)
}

// A list of calls, and its answers.
ghost use Rattle.std.specs.Prelude.{◌≡◌, min, length, take, drop};
ghost use Rattle.expression.specs.Expressions.{formula};
ghost use Rattle.monitor.specs.Plain.{opened, Agrees};

use crate::calls::{Answer, Call};
use crate::monitor::Monitor;
use expression::Expression;
use watch::Watcher;

// Puts the calls to a newly opened monitor and writes its answers, as many as both slices hold; answers how many. What
// is behind them stays.
pub fn answer_all<W: Watcher + Drop>(
    watcher: W,
    expression: Expression,
    calls: &[Call],
    answers: &mut [Answer],
) -> usize
    ensures count { result ≡ min (length calls.now) (length answers.old) }
    ensures agrees { Agrees (W.watching watcher) (formula expression) opened (take result calls.now) (take result answers.new) }
    ensures rest { drop result answers.new ≡ drop result answers.old }
{
    let mut monitor = Monitor::open(watcher, expression);
    let count = calls.len().min(answers.len());
    // A `zip` with `answers.iter_mut()` would leave the proof without the answers.
    for (place, call) in calls[..count].iter().enumerate() {
        answers[place] = monitor.call(*call);
    }
    count
}

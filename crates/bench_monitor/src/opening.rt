// Opening a monitor: how long it takes, and what comes of it.
use expression::Expression;
use monitor::{Monitor, Word};
use outlook::outlook;
use std::time::Instant;
use watch::Watcher;

// What both programs must agree on, and the time that it took.
#[derive(Clone, Copy)]
pub struct Opened {
    pub keepable: usize,
    pub breakable: usize,
    pub word: Word,
    pub nanos: u128,
}

// How many are true. A sum, since a `filter` would jump at each of them, and they take a fifth of a small opening.
fn count(table: &[bool]) -> usize {
    let mut count = 0usize;
    for is in table {
        count = count.wrapping_add(usize::from(*is));
    }
    count
}

// Opens a monitor over the watcher, for term 1. The states are counted outside of the time.
pub fn time_opening<W: Watcher + Drop>(rt: &HostRuntime, watcher: W) -> anyhow::Result<Opened> {
    let expression = Expression::blank();
    let chart = outlook(&watcher, &expression.truths());
    let begun = Instant::now(rt)?;
    let monitor = Monitor::open(watcher, expression);
    let (word, _) = monitor.verdict();
    let nanos = begun.elapsed(rt)?.as_nanos();
    Ok(Opened {
        keepable: count(&chart.keepable),
        breakable: count(&chart.breakable),
        word,
        nanos,
    })
}

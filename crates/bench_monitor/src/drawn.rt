// Drawn tables: a watcher, written out as the list that a distributor sends.
use std::alloc::{AllocError, Global};
use table::Table;
use watch::Watcher;

// The list of a watcher.
fn words_of<W: Watcher>(heap: Global, watcher: &W) -> Result<Vec<u16>, AllocError> {
    let sizes = watcher.sizes();
    let events = u16::from(sizes.events);
    let marks = u16::from(sizes.marks);
    let mut words = vec![in heap; sizes.states, events, marks]?;
    words.extend((0..sizes.states).map(|state| u16::from(watcher.shown(state).bits)))?;
    for state in 0..sizes.states {
        words.extend((0..sizes.letters).map(|letter| watcher.next(state, letter)))?;
    }
    Ok(words)
}

// The table of a watcher.
pub fn drawn<W: Watcher>(heap: Global, watcher: &W) -> anyhow::Result<Table> {
    let mut table = Table::blank(heap);
    table.read(words_of(heap, watcher)?)?;
    Ok(table)
}

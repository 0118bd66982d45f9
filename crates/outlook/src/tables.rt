// Tables over the states of a watcher, and what some states share.
ghost use Rattle.std.specs.Prelude.{◌≡◌, true, false, length};
ghost use Rattle.std.specs.List.{list_any};
ghost use Rattle.outlook.specs.Outlooks.{at};
ghost use Rattle.outlook.specs.inner.Tables.{Filled, Shared};

use crate::search::Stop;
use crate::state::State;

// The most states that a watcher can have. A table has a place for each.
pub const MOST_STATES: usize = watch::MOST_STATES as usize;

// Whether one of the states is in the table.
fn any(table: &[bool; MOST_STATES], group: &[Stop]) -> bool
    ensures { result ≡ list_any (λ s. at table.now s.state.number) group.now }
{
    group
        .iter()
        .any(|stop| table[usize::from(stop.state.number)])
}

// Puts the states into the table.
fn fill(table: &mut [bool; MOST_STATES], group: &[Stop])
    ensures { Filled group.now (length group.now) table.old table.new }
{
    for stop in group {
        table[usize::from(stop.state.number)] = true;
    }
}

// Where one of the states is in the table, puts all of them in, and with them the one that they were reached from,
// if there is one.
pub(crate) fn share(table: &mut [bool; MOST_STATES], group: &[Stop], parent: Option<State>)
    ensures { Shared group.now parent table.old table.new }
{
    if !any(table, group) {
        return;
    }
    fill(table, group);
    if let Some(state) = parent {
        table[usize::from(state.number)] = true;
    }
}

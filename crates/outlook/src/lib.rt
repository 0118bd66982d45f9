// What can still come of a run: from which states of a watcher some endless run comes to rest at good marks,
// and from which at others.
#![tactic(auto)]

mod chart;
mod looking;
mod search;
mod state;
mod tables;

pub use chart::Outlook;
pub use looking::outlook;
pub use tables::MOST_STATES;
pub use watch::MARK_SETS;

// Sheets: the terms that came with a series, as a watcher, and what they mean.
#![tactic(auto)]

mod making;
mod opening;
mod sheet;
mod terms;

pub use opening::verdict;
pub use sheet::Sheet;

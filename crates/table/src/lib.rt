// The drawn table: a watcher that a distributor sends as a list of 16-bit words.
#![tactic(auto)]

mod drawing;
mod lawful;
mod reading;
mod refusal;
mod sizes;
mod table;

pub use refusal::Refusal;
pub use table::Table;

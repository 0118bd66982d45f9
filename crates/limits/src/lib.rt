// The questions that the parts of a sheet have to answer with yes.
#![tactic(auto)]

mod declaring;
mod events;
mod forms;
mod judging;
mod refusal;

pub use judging::{judge, state_count};
pub use refusal::Refusal;

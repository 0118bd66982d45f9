// The automaton of a row: its states, its next state in a step, and the state that shows that the row is broken.
#![tactic(auto)]

mod counting;
mod moves;
mod stepping;

pub use stepping::{next, shows, states};

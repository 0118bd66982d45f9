// Piles: watchers that stand on other watchers.
//
// A pile is a watcher whatever it was built from. Whether it keeps the limits is a question of its own; built despite a
// no, it is the stub: one state, one mark that is never shown, and the events of its (first) watcher.
#![tactic(auto)]

mod delay;
mod halves;
mod pair;
mod refusal;
mod stub;

pub use delay::Delay;
pub use pair::Pair;
pub use refusal::Refusal;

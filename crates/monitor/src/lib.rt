// The monitor: the word after the closed steps, and the claim over every list of calls.
#![tactic(auto)]

mod answering;
mod calls;
mod closing;
mod monitor;
mod refusal;
mod running;
mod word;

pub use answering::answer_all;
pub use calls::{Answer, Call};
pub use monitor::Monitor;
pub use refusal::Refusal;
pub use word::Word;

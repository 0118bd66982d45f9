// Terms as a licence has them, what they mean in OSL, and which declared events they speak of.
#![tactic(auto)]

mod choosing;
mod event;
mod matched;
mod matching;
mod permits;
mod published;
mod row;

pub use choosing::EventSet;
pub use event::{Class, Event, Pair, Param, Pattern};
pub use matched::Matched;
pub use published::{counts_are_sizes, operators_are_as_published};
pub use row::{Count, PermittedNames, PermittedValues, Row, Test};
pub use watch::PLACES;

// Endless runs and what watches them: letters, marks, and the trait that every watcher implements.
#![tactic(auto)]

mod following;
mod kind;
mod letters;
mod marks;
mod step;
mod watcher;

pub use following::{Passed, follow, stray};
pub use kind::{Kind, UnknownKind};
pub use letters::{DIGITS, MOST_EVENTS, letter_count};
pub use marks::{MARK_SETS, MOST_MARKS, MarkSet};
pub use step::{PLACES, Step};
pub use watcher::{MOST_STATES, Sizes, Watcher};

// Bytes as lines, words, numbers and names.
#![tactic(auto)]

mod apart;
mod bytes;
mod clean;
mod line;
mod name;
mod naming;
mod numbers;

pub use apart::{Compares, are_apart};
pub use bytes::unended;
pub use clean::is_clean;
pub use line::Words;
pub use name::Name;
pub use numbers::number;

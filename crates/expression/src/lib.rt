// Expressions over terms: how they are read and written, and what their value is.
#![tactic(auto)]

mod expression;
mod fault;
mod reading;
mod show;
#[cfg(test)]
mod tests;
mod token;
mod tokens;
mod value;

pub use expression::Expression;
pub use fault::Fault;
pub use token::Token;

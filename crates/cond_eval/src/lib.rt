//! The value of an expression and whether a condition holds, at an event and with the events taken before it.
#![tactic(auto)]

mod aggregate;
mod answer;
mod condition;
mod evaluate;
mod field;
mod listed;

pub use aggregate::{greater_of, lesser_of};
pub use answer::{in_word, number_if_known};
pub use condition::holds;
pub use evaluate::value;
pub use field::field_of;
pub use listed::ListMatched;

//! The aggregates of the events taken so far, kept as they grow, so that a condition is asked in a time that does not grow with the list.
#![tactic(auto)]

mod asked;
mod gather;
mod held;
mod met;
mod slot;
mod sums;

pub use asked::Asked;
pub use met::is_met;
pub use sums::Sums;

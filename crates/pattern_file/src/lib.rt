//! What the bytes of a pattern file come to: they are read, checked, and made a plan that runs or a text that is printed.
#![tactic(auto)]

mod fault;
mod laws;
mod whole;

pub use fault::PatternFault;
pub use laws::unique_answers;
pub use whole::{plan_in, printed_in};

//! What a match leaves of the others: the range of starts that an after-match skip strategy kills.
#![tactic(auto)]

mod range;
#[cfg(test)]
mod tests;

pub use range::cut;

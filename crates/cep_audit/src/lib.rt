//! Whether a given list is a match, by the meaning of the pattern alone: entry by entry, with each gap looked at once. It knows no automaton, no runs and no buffer.
#![tactic(auto)]

mod candidate;
mod follow;
mod gap;
mod judged;
mod last;
mod limit;

pub use judged::{Chosen, is_match};

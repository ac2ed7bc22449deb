//! The automaton of a plan: a state for each stage and number of its events, and for each state the stages that may come next. It is made once for a pattern, before the first event.
#![tactic(auto)]

mod compilable;
mod compiled;
mod explained;
mod nfa;
mod reach;
mod state;
mod waiting;

pub use compilable::is_compilable;
pub use compiled::compile;
pub use explained::explain;
pub use nfa::{Nfa, Took, TookList, Wait, WaitList};
pub use state::{State, greatest_at};
pub use waiting::contiguity_between;

//! Tables of automata, of event time, of time limits and of the engine. They stand apart from the crates that they try, so that those are proved once.
#![tactic(auto)]

#[cfg(test)]
mod automaton;
#[cfg(test)]
mod engine;
#[cfg(test)]
mod limits;
#[cfg(test)]
mod order;

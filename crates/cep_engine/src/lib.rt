//! From ticks to items: the engine takes one tick after another, and tells the matches and the timed-out partial matches that the skip strategy keeps.
#![tactic(auto)]

mod advance;
mod engine;
mod matches;
mod tick;
mod timeouts;
mod tips;

pub use engine::{Engine, EngineFault, has_room};

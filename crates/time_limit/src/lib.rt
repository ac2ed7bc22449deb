//! Time limits: the starts and the last positions of partial matches whose time is still open, in order, and which of them are due.
#![tactic(auto)]

mod limits;
mod queue;

pub use limits::Limits;
pub use queue::Place;

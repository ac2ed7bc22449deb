//! From records to what they make known: event time and the engine under one owner, which tells each late event and each kept item
//! as it comes, and shows the engine to a gauge after each tick.
#![tactic(auto)]

mod gauge;
mod outputs;
mod pipeline;
mod ticks;

pub use gauge::{Gauge, HeldList, MemoryGauge, NoGauge};
pub use outputs::{Outputs, TellFault};
pub use pipeline::Pipeline;

//! The top call: its words, its pattern file, and the run over its input.
#![tactic(auto)]

mod load;
mod pattern;
mod program;
mod run;
mod sure;
mod written;

pub use cep_session::{RowCause, Status, number, tell};
pub use event_pipeline::{Gauge, HeldList, MemoryGauge, NoGauge};
pub use program::cep;
pub use sure::cep_in_memory;

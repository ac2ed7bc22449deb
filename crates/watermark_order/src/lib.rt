//! Event time: events wait until a mark reaches their time, and come out by time and row.
#![tactic(auto)]

mod order;
mod waiting;

pub use order::{Arrived, Order};

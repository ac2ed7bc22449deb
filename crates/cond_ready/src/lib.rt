//! Conditions at an event: what the event alone tells is found once, and only what is left is asked of each list of taken events.
#![tactic(auto)]

mod alone;
mod asked;
mod compare;
mod never;
mod ready;
mod rest;
mod rests;

pub use never::never_met;
pub use ready::{AtEvent, at_event};

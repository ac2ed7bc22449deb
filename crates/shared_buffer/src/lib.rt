//! The versioned match buffer: partial matches share the events that they have in common.
#![tactic(auto)]

mod buffer;
mod conditions;
mod edges;
mod entries;
mod keys;
mod members;
mod node;
mod nodes;

pub use buffer::{Buffer, Held, Link};
pub use keys::{EventKey, NodeKey};

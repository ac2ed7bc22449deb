//! What stands in a buffer under the keys of events and of nodes.
use crate::edges::Edges;
use crate::keys::EventKey;
use crate::members::Members;
use cep_event::Event;

/// An event that stands in the buffer.
#[derive(Debug, Drop)]
pub struct Standing {
    pub event: Event,
    /// Its place in the stream.
    pub position: u32,
    /// Whether it stands even with no node on it.
    pub pinned: bool,
}

/// An event with the nodes that stand on it.
#[derive(Drop)]
pub struct Entry {
    pub row: Standing,
    pub members: Members,
}

/// A state in which an event was taken.
#[derive(Drop)]
pub struct Node {
    pub stage: u16,
    pub state: u16,
    pub event: EventKey,
    /// The place of its event in the stream.
    pub position: u32,
    pub edges: Edges,
}

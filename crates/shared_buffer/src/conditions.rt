//! Whether the conditions of a buffer's calls are met.
ghost use Rattle.std.specs.Prelude.{◌≡◌, ◌<◌, ◌≤◌, ◌↔◌, IsTrue, IsSome, is_some};
ghost use Rattle.std.specs.Option.{ForSome};
ghost use Rattle.shared_buffer.specs.Slots.{slot_at};
ghost use Rattle.shared_buffer.specs.Nodes.{edge_at, CanHold};
ghost use Rattle.shared_buffer.specs.Put.{CanCarry, CanPut, Fits};
ghost use Rattle.shared_buffer.specs.Release.{HasHold};
ghost use Rattle.shared_buffer.specs.Content.{rows, IsPinned};
ghost use Rattle.shared_buffer.specs.Graph.{successors, IsIndexed, IsGraph};

use crate::keys::{EventKey, NodeKey};
use crate::node::{Entry, Node};
use dewey_version::Version;
use slab::Slab;

pub fn has_event(entries: &Slab<Entry>, event: EventKey) -> bool
    ensures { result ≡ is_some (slot_at (rows entries.now.slots) event) }
{
    entries.contains(event.slot())
}

pub fn is_pinned(entries: &Slab<Entry>, event: EventKey) -> bool
    ensures { IsTrue result ↔ IsPinned (rows entries.now.slots) event }
{
    match entries.get(event.slot()) {
        Some(entry) => entry.row.pinned,
        None => false,
    }
}

pub fn leads_on(nodes: &Slab<Node>, node: NodeKey, version: &Version) -> bool
    ensures { result ≡ is_some (edge_at nodes.now.slots node version.now) }
{
    match nodes.get(node.slot()) {
        Some(row) => row.edges.get(version).is_some(),
        None => false,
    }
}

pub fn can_hold(nodes: &Slab<Node>, node: NodeKey, version: &Version) -> bool
    ensures { IsTrue result ↔ CanHold nodes.now.slots node version.now }
{
    match nodes.get(node.slot()) {
        Some(row) => row.edges.has_room(version),
        None => false,
    }
}

/// Whether a new edge with the label on an event at the position can stand on the node.
fn can_carry(nodes: &Slab<Node>, position: u32, label: &Version, node: NodeKey) -> bool
    ensures { IsTrue result ↔ CanCarry nodes.now.slots position label.now node }
{
    match nodes.get(node.slot()) {
        Some(row) => row.position < position && row.edges.has_room(label),
        None => false,
    }
}

/// Whether fewer edges stand on the one with the label on the node than this count, which is no fewer than they are.
fn is_counted_more(nodes: &Slab<Node>, node: NodeKey, label: &Version, count: u64) -> bool
    requires { successors nodes.now.slots node label.now ≤ count }
    ensures { IsTrue result ↔ (successors nodes.now.slots node label.now < count) }
{
    let mut standing = 0u64;
    for (_key, row) in nodes.iter() {
        standing += row.edges.successors(node, label) as u64;
    }
    standing < count
}

pub fn has_hold(nodes: &Slab<Node>, node: NodeKey, version: &Version) -> bool
    requires { IsGraph nodes.now.slots }
    ensures { IsTrue result ↔ HasHold nodes.now.slots node version.now }
{
    let Some(row) = nodes.get(node.slot()) else {
        return false;
    };
    match row.edges.get(version) {
        Some(edge) => is_counted_more(nodes, node, &edge.label, edge.count),
        None => false,
    }
}

/// Whether the node, where there is one, is of this stage and takes this label.
fn fits_node(nodes: &Slab<Node>, node: Option<NodeKey>, stage: u16, label: &Version) -> bool
    requires { ForSome node (λ key. IsSome (slot_at nodes.now.slots key)) }
    ensures { IsTrue result ↔ ForSome node (λ key. Fits nodes.now.slots key stage label.now) }
{
    match node {
        Some(node) => {
            let row = &nodes[node.slot()];
            row.stage == stage && row.edges.is_apart(label)
        }
        None => true,
    }
}

/// Whether the predecessor, where there is one, can carry the label.
fn is_carried(nodes: &Slab<Node>, position: u32, label: &Version, pred: Option<NodeKey>) -> bool
    ensures { IsTrue result ↔ ForSome pred (λ key. CanCarry nodes.now.slots position label.now key) }
{
    match pred {
        Some(pred) => can_carry(nodes, position, label, pred),
        None => true,
    }
}

pub fn can_put(
    entries: &Slab<Entry>,
    nodes: &Slab<Node>,
    stage: u16,
    state: u16,
    event: EventKey,
    pred: Option<NodeKey>,
    label: &Version,
) -> bool
    requires { IsIndexed entries.now.slots nodes.now.slots }
    ensures { IsTrue result ↔ CanPut (record { events = rows entries.now.slots; nodes = nodes.now.slots }) stage state event pred label.now }
{
    match entries.get(event.slot()) {
        Some(entry) => {
            fits_node(nodes, entry.members.find(state), stage, label)
                && is_carried(nodes, entry.row.position, label, pred)
        }
        None => false,
    }
}

//! The buffer.
ghost use Rattle.std.specs.Prelude.{◌≡◌, ◌+◌, ◌↔◌, [], Some, None, true, false, IfOk, OnOk, OnErr, IfNone, IfSome, OnSome, ◌⊎◌, IsSome, IsTrue, count_by, is_some};
ghost use Rattle.std.specs.Option.{ForSome};
ghost use Rattle.shared_buffer.specs.Slots.{slot_at, with_slot_changed, Changes};
ghost use Rattle.shared_buffer.specs.Nodes.{edge_at, node_up, HasEdgeAt, CanHold, GoesOn};
ghost use Rattle.shared_buffer.specs.Put.{CanPut, Puts};
ghost use Rattle.shared_buffer.specs.Exact.{AddsOneHold, AddsOneEdge, ReleasesOneHold};
ghost use Rattle.shared_buffer.specs.Facts.{IsConsistent};
ghost use Rattle.shared_buffer.specs.Release.{HasHold, KeepsHolds, KeepsHoldsBut, CountsDown, Drops, Releases, KeepsEvents};
ghost use Rattle.shared_buffer.specs.Link.{link_at};
ghost use Rattle.shared_buffer.specs.declared.node.Standing.{Standing as StandingRow};
ghost use Rattle.shared_buffer.specs.Content.{Content, IsPinned, IsUsed, HasPosition};
ghost use Rattle.shared_buffer.specs.Graph.{edge_total};

use crate::edges::{Edge, Edges};
use crate::keys::{EventKey, NodeKey};
use crate::members::{Member, Members};
use crate::node::{Entry, Node, Standing};
use crate::{conditions, entries, nodes};
use cep_event::{Event, NoMemory};
use dewey_version::Version;
use slab::Slab;
use std::alloc::Global;
use std::marker::Model;

/// How many edges a buffer has at most. No memory holds so many.
const MOST_EDGES: u64 = 1 << 62;

/// Events, and the nodes and edges over them that partial matches share.
#[derive(Drop)]
pub struct Buffer {
    alloc: Global,
    entries: Slab<Entry>,
    nodes: Slab<Node>,
    // How many edges stand on all nodes.
    edge_count: u64,
}

impl Model for Buffer {
    ghost use Rattle.shared_buffer.specs.Content.{Content, rows};
    ghost use Rattle.shared_buffer.specs.Graph.{IsSound};

    ghost Value = { Content };

    ghost view = { λ b. record { events = rows b.entries.slots; nodes = b.nodes.slots } };

    ghost invariant = { λ b. IsSound b.entries.slots b.nodes.slots b.edge_count };
}

/// One step of a path through the buffer.
#[derive(Clone, Copy, Debug, PartialEq, Eq)]
pub struct Link {
    pub stage: u16,
    pub event: EventKey,
    pub position: u32,
    pub pred: Option<NodeKey>,
}

/// How much stands in a buffer.
#[derive(Clone, Copy, Debug, PartialEq, Eq)]
pub struct Held {
    pub events: u64,
    pub nodes: u64,
    pub edges: u64,
}

impl Buffer {
    /// A buffer with nothing in it. It takes no memory.
    pub fn new(alloc: Global) -> Buffer
        ensures empty { result ≡ record { events = []; nodes = [] } }
        ensures consistent { IsConsistent result }
    {
        let buffer = Buffer {
            alloc,
            entries: Slab::new(alloc),
            nodes: Slab::new(alloc),
            edge_count: 0,
        };
        buffer.facts();
        buffer
    }

    /// Does nothing. Its contract tells what is true of every buffer.
    pub fn facts(&self)
        ensures { IsConsistent self.now }
    {
        let _ = &self.nodes;
    }

    /// Adds an event, with a pin and no node. The position is its place in the stream.
    pub fn add_event(&mut self, event: Event, position: u32) -> Result<EventKey, NoMemory>
        ensures vacant { IfOk result (λ key. slot_at self.old.events key ≡ None) }
        ensures added { IfOk result (λ key. Changes self.old.events self.new.events key (Some (record { event = event; position = position; pinned = true }))) }
        ensures nodes { self.new.nodes ≡ self.old.nodes }
        ensures err { OnErr result (self.new ≡ self.old) }
        ensures consistent { IsConsistent self.new }
    {
        self.facts();
        let row = Standing {
            event,
            position,
            pinned: true,
        };
        let entry = Entry {
            row,
            members: Members::new(self.alloc),
        };
        let slot = self.entries.insert(entry)?;
        self.facts();
        Ok(EventKey::new(slot))
    }

    /// Takes the pin of an event. Where no node stands on it, the event goes. It takes no memory.
    pub fn settle(&mut self, event: EventKey)
        requires { IsPinned self.old.events event }
        ensures nodes { self.new.nodes ≡ self.old.nodes }
        ensures used { IsUsed self.old.nodes event → (row : StandingRow) → slot_at self.old.events event ≡ Some row → Changes self.old.events self.new.events event (Some (record row { pinned = false })) }
        ensures unused { (IsUsed self.old.nodes event → ⊥) → Changes self.old.events self.new.events event None }
        ensures consistent { IsConsistent self.new }
    {
        entries::unpin(&mut self.entries, event);
        self.facts();
    }

    /// Adds an edge to the node of the state on the event, with one hold of the caller's. The node is made
    /// where it is not there yet. The edge stands on the predecessor's edge that its label goes on from,
    /// which is counted one higher. Beside want of memory, an edge more than 2^62 is refused as such.
    pub fn put(
        &mut self,
        stage: u16,
        state: u16,
        event: EventKey,
        pred: Option<NodeKey>,
        label: &Version,
    ) -> Result<NodeKey, NoMemory>
        requires { CanPut self.old stage state event pred label.now }
        ensures ok { IfOk result (λ key. Puts self.old self.new stage state event pred label.now key) }
        ensures holds { IfOk result (λ key. AddsOneEdge self.old.nodes self.new.nodes key (record { pred = pred; label = label.now; count = 1 })) }
        ensures held { IfOk result (λ key. HasHold self.new.nodes key label.now) }
        ensures keeps { OnOk result (KeepsHolds self.old.nodes self.new.nodes) }
        ensures err { OnErr result (self.new ≡ self.old) }
        ensures consistent { IsConsistent self.new }
    {
        self.facts();
        if self.edge_count >= MOST_EDGES {
            return Err(NoMemory);
        }
        let edge = Edge {
            pred,
            label: label.copy()?,
            count: 1,
        };
        let entry = &self.entries[event.slot()];
        match entry.members.find(state) {
            Some(node) => {
                nodes::insert_edge(&mut self.nodes, node, edge)?;
                nodes::count_pred(&mut self.nodes, pred, label);
                self.edge_count += 1;
                self.facts();
                Ok(node)
            }
            None => {
                let position = entry.row.position;
                let edges = Edges::single(self.alloc, edge)?;
                let node = nodes::reserve_node(&mut self.nodes)?;
                entries::push_member(&mut self.entries, event, Member { state, node })?;
                let row = Node {
                    stage,
                    state,
                    event,
                    position,
                    edges,
                };
                nodes::fill_node(&mut self.nodes, node, row);
                nodes::count_pred(&mut self.nodes, pred, label);
                self.edge_count += 1;
                self.facts();
                Ok(node)
            }
        }
    }

    /// Counts the node's edge that leads on with the version one higher. It takes no memory.
    pub fn hold(&mut self, node: NodeKey, version: &Version)
        requires { CanHold self.old.nodes node version.now }
        ensures counted { self.new ≡ record self.old { nodes = with_slot_changed (node_up version.now) self.old.nodes node } }
        ensures holds { AddsOneHold self.old.nodes self.new.nodes node version.now }
        ensures held { HasHold self.new.nodes node version.now }
        ensures keeps { KeepsHolds self.old.nodes self.new.nodes }
        ensures consistent { IsConsistent self.new }
    {
        nodes::count_up(&mut self.nodes, node, version);
        self.facts();
    }

    /// Takes one hold from the edge, and says which edge loses one in turn, where this one goes.
    fn release_one(&mut self, node: NodeKey, version: &Version) -> Option<NodeKey>
        requires { HasHold self.old.nodes node version.now }
        ensures ends { IfNone result (CountsDown self.old.nodes self.new.nodes node version.now ⊎ Drops self.old.nodes self.new.nodes node version.now None) }
        ensures goes_on { IfSome result (λ pred. Drops self.old.nodes self.new.nodes node version.now (Some pred)) }
        ensures hold { IfSome result (λ pred. HasHold self.new.nodes pred version.now) }
        ensures fewer { OnSome result (edge_total self.new.nodes + 1 ≡ edge_total self.old.nodes) }
        ensures events { KeepsEvents self.old.events self.new.events self.new.nodes }
    {
        let row = &self.nodes[node.slot()];
        let event = row.event;
        let state = row.state;
        let single = row.edges.len() == 1;
        let count = row.edges.find(version).count;
        if count > 1 {
            nodes::count_down(&mut self.nodes, node, version);
            return None;
        }
        let pred = nodes::drop_edge(&mut self.nodes, node, version);
        self.edge_count -= 1;
        if !single {
            return pred;
        }
        entries::remove_member(&mut self.entries, event, state);
        pred
    }

    /// Takes one hold from the node's edge that leads on with the version. An edge that is then counted
    /// nowhere goes, and the edge that it stood on loses one in the same way. A node without an edge
    /// goes, and so does an event without a node and a pin. It takes no memory.
    pub fn release(&mut self, node: NodeKey, version: &Version)
        requires { HasHold self.old.nodes node version.now }
        ensures nodes { Releases version.now self.new.nodes self.old.nodes node }
        ensures exact { ReleasesOneHold self.old.nodes self.new.nodes node version.now }
        ensures keeps { KeepsHoldsBut node self.old.nodes self.new.nodes }
        ensures events { KeepsEvents self.old.events self.new.events self.new.nodes }
        ensures consistent { IsConsistent self.new }
    {
        let _ = &self.nodes;
        let mut next = self.release_one(node, version);
        while let Some(key) = next {
            next = self.release_one(key, version);
        }
        self.facts();
    }

    /// The event of a key.
    pub fn event(&self, event: EventKey) -> &Event
        requires { IsSome (slot_at self.now.events event) }
        ensures { ForSome (slot_at self.now.events event) (λ row. result.now ≡ row.event) }
    {
        let entry = &self.entries[event.slot()];
        &entry.row.event
    }

    /// The stage and the event of a node, and the node before it on the way that the version goes.
    pub fn link(&self, node: NodeKey, version: &Version) -> Link
        requires { HasEdgeAt self.now.nodes node version.now }
        ensures link { link_at self.now.nodes node version.now ≡ Some result }
        ensures event { HasPosition self.now.events result.event result.position }
        ensures before { ForSome result.pred (λ pred. GoesOn self.now.nodes pred result.position version.now) }
    {
        let row = &self.nodes[node.slot()];
        let edge = row.edges.find(version);
        Link {
            stage: row.stage,
            event: row.event,
            position: row.position,
            pred: edge.pred,
        }
    }

    /// How many events, nodes and edges stand. None of the numbers can be above the greatest u64.
    pub fn held(&self) -> Held
        ensures events { result.events ≡ count_by is_some self.now.events }
        ensures nodes { result.nodes ≡ count_by is_some self.now.nodes }
        ensures edges { result.edges ≡ edge_total self.now.nodes }
    {
        Held {
            events: self.entries.len() as u64,
            nodes: self.nodes.len() as u64,
            edges: self.edge_count,
        }
    }

    /// Whether the event stands, as `event` asks.
    pub fn has_event(&self, event: EventKey) -> bool
        ensures { result ≡ is_some (slot_at self.now.events event) }
    {
        conditions::has_event(&self.entries, event)
    }

    /// Whether the event stands and has a pin, as `settle` asks.
    pub fn is_pinned(&self, event: EventKey) -> bool
        ensures { IsTrue result ↔ IsPinned self.now.events event }
    {
        conditions::is_pinned(&self.entries, event)
    }

    /// Whether the node stands and one of its edges leads on with the version, as `link` asks.
    pub fn leads_on(&self, node: NodeKey, version: &Version) -> bool
        ensures { result ≡ is_some (edge_at self.now.nodes node version.now) }
    {
        conditions::leads_on(&self.nodes, node, version)
    }

    /// Whether there is such an edge that can be counted one higher, as `hold` asks.
    pub fn can_hold(&self, node: NodeKey, version: &Version) -> bool
        ensures { IsTrue result ↔ CanHold self.now.nodes node version.now }
    {
        conditions::can_hold(&self.nodes, node, version)
    }

    /// Whether there is such an edge that has a hold, as `release` asks. It visits every edge of the buffer.
    pub fn has_hold(&self, node: NodeKey, version: &Version) -> bool
        ensures { IsTrue result ↔ HasHold self.now.nodes node version.now }
    {
        conditions::has_hold(&self.nodes, node, version)
    }

    /// Whether the conditions of `put` are met.
    pub fn can_put(
        &self,
        stage: u16,
        state: u16,
        event: EventKey,
        pred: Option<NodeKey>,
        label: &Version,
    ) -> bool
        ensures { IsTrue result ↔ CanPut self.now stage state event pred label.now }
    {
        conditions::can_put(&self.entries, &self.nodes, stage, state, event, pred, label)
    }
}

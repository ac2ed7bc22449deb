//! Changes of one node among all.
ghost use Rattle.std.specs.Prelude.{◌≡◌, ◌+◌, ◌^◌, ◌<◌, Some, None, IfOk, OnOk, OnErr, IsSome, option_and_then, option_map};
ghost use Rattle.std.specs.Option.{ForSome};
ghost use Rattle.slab.specs.Slab.{HasRoomFor};
ghost use Rattle.shared_buffer.specs.Graph.{IsApartFrom};
ghost use Rattle.shared_buffer.specs.Slots.{slot_at, with_slot_changed, Changes};
ghost use Rattle.shared_buffer.specs.Nodes.{edge_at, node_up, node_down, node_with, slot_without, with_pred_counted, HasEdgeAt};

use crate::edges::Edge;
use crate::keys::NodeKey;
use crate::node::Node;
use cep_event::NoMemory;
use dewey_version::Version;
use slab::Slab;

/// Counts the node's edge that leads on with the version one higher.
pub fn count_up(nodes: &mut Slab<Node>, node: NodeKey, version: &Version)
    requires leads { HasEdgeAt nodes.old.slots node version.now }
    requires room { ForSome (edge_at nodes.old.slots node version.now) (λ edge. edge.count + 1 < 2 ^ 64) }
    ensures { nodes.new.slots ≡ with_slot_changed (node_up version.now) nodes.old.slots node }
{
    let row = &mut nodes[node.slot()];
    row.edges.count_up(version);
}

/// Counts the node's edge that leads on with the version one lower.
pub fn count_down(nodes: &mut Slab<Node>, node: NodeKey, version: &Version)
    requires leads { HasEdgeAt nodes.old.slots node version.now }
    requires counted { ForSome (edge_at nodes.old.slots node version.now) (λ edge. 0 < edge.count) }
    ensures { nodes.new.slots ≡ with_slot_changed (node_down version.now) nodes.old.slots node }
{
    let row = &mut nodes[node.slot()];
    row.edges.count_down(version);
}

/// Adds an edge to the node.
pub fn insert_edge(nodes: &mut Slab<Node>, node: NodeKey, edge: Edge) -> Result<(), NoMemory>
    requires stands { IsSome (slot_at nodes.old.slots node) }
    requires apart { ForSome (slot_at nodes.old.slots node) (λ row. IsApartFrom edge.label row.edges) }
    ensures ok { OnOk result (nodes.new.slots ≡ with_slot_changed (node_with edge) nodes.old.slots node) }
    ensures err { OnErr result (nodes.new.slots ≡ nodes.old.slots) }
{
    let row = &mut nodes[node.slot()];
    row.edges.insert(edge)
}

/// Removes the node's edge that leads on with the version, and says where it led. Where it was the only
/// one, the node goes.
pub fn drop_edge(nodes: &mut Slab<Node>, node: NodeKey, version: &Version) -> Option<NodeKey>
    requires { HasEdgeAt nodes.old.slots node version.now }
    ensures pred { option_map (λ edge. edge.pred) (edge_at nodes.old.slots node version.now) ≡ Some result }
    ensures rest { Changes nodes.old.slots nodes.new.slots node (option_and_then (slot_without version.now) (slot_at nodes.old.slots node)) }
{
    let row = &mut nodes[node.slot()];
    let edge = row.edges.remove(version);
    if row.edges.is_empty() {
        let _ = nodes.remove(node.slot());
    }
    edge.pred
}

/// Counts the edge that an edge of this label stands on one higher, where it stands on one.
pub fn count_pred(nodes: &mut Slab<Node>, pred: Option<NodeKey>, label: &Version)
    requires leads { ForSome pred (λ node. HasEdgeAt nodes.old.slots node label.now) }
    requires room { ForSome pred (λ node. ForSome (edge_at nodes.old.slots node label.now) (λ edge. edge.count + 1 < 2 ^ 64)) }
    ensures { nodes.new.slots ≡ with_pred_counted label.now pred nodes.old.slots }
{
    if let Some(pred) = pred {
        count_up(nodes, pred, label);
    }
}

/// Makes room for one more node, and says which key it will have.
pub fn reserve_node(nodes: &mut Slab<Node>) -> Result<NodeKey, NoMemory>
    ensures same { nodes.new.slots ≡ nodes.old.slots }
    ensures next { IfOk result (λ node. node ≡ nodes.new.vacant_key) }
    ensures vacant { IfOk result (λ node. slot_at nodes.new.slots node ≡ None) }
    ensures room { OnOk result (HasRoomFor nodes.new 1) }
{
    nodes.reserve(1)?;
    Ok(NodeKey::new(nodes.vacant_key()))
}

/// Puts a node under the key that was made room for.
pub fn fill_node(nodes: &mut Slab<Node>, node: NodeKey, row: Node)
    requires room { HasRoomFor nodes.old 1 }
    requires next { node ≡ nodes.old.vacant_key }
    ensures { Changes nodes.old.slots nodes.new.slots node (Some row) }
{
    let _ = nodes.insert_reserved(row);
}

//! The edges of one node.
ghost use Rattle.std.specs.Prelude.{◌≡◌, ◌<◌, ◌≤◌, ◌+◌, [], ◌∷◌, ◌^◌, ◌==◌, ◌↔◌, length, Some, IfOk, OnOk, OnErr, IsTrue, count_by};
ghost use Rattle.std.specs.Option.{ForSome, option_copied};
ghost use Rattle.std.specs.List.{position_or_len, list_all};
ghost use Rattle.shared_buffer.specs.Edges.{HasEdge, HasRoom, IsInOrder, leads, is_above, find_edge, is_apart_from, with_edge, counted_up, counted_down, without_edge};
ghost use Rattle.shared_buffer.specs.Graph.{is_successor, IsApartFrom};

use crate::keys::NodeKey;
use cep_event::NoMemory;
use dewey_version::Version;
use std::alloc::Global;
use std::collections::VecDeque;
use std::marker::Model;

/// One edge of a node: the way on from it, under a label, to the node before it.
#[derive(Drop)]
pub struct Edge {
    /// The node before this one, or none where a match begins here.
    pub pred: Option<NodeKey>,
    /// The label under which the edge is found.
    pub label: Version,
    /// How many edges and callers stand on this edge.
    pub count: u64,
}

/// The edges of a node, in the order of their labels. No label begins with another, so of all edges only the last
/// one whose label isn't above a version can have a prefix of it: a binary search finds it.
#[derive(Drop)]
pub struct Edges {
    // A queue gives edges back at either end, where most of them go.
    list: VecDeque<Edge>,
}

impl Model for Edges {
    ghost use Rattle.std.specs.Prelude.{List};
    ghost use Rattle.shared_buffer.specs.declared.edges.Edge.{Edge as One};
    ghost use Rattle.shared_buffer.specs.Edges.{IsInOrder};

    ghost Value = { List One };

    ghost view = { λ e. e.list.items };

    ghost invariant = { λ e. IsInOrder e.list.items };
}

// The place of the first edge whose label is above the version, or how many edges there are.
fn first_above(edges: &VecDeque<Edge>, version: &Version) -> usize
    requires { IsInOrder edges.now.items }
    ensures { result ≡ position_or_len (is_above version.now) edges.now.items }
{
    edges.partition_point(|edge| !edge.label.compare(version).is_gt())
}

// The place of the edge whose label is a prefix of the version.
fn place(edges: &VecDeque<Edge>, version: &Version) -> usize
    requires order { IsInOrder edges.now.items }
    requires leads { HasEdge edges.now.items version.now }
    ensures place { result ≡ position_or_len (leads version.now) edges.now.items }
    ensures within { result < length edges.now.items }
{
    first_above(edges, version) - 1
}

fn find_in<'a>(edges: &'a VecDeque<Edge>, version: &Version) -> Option<&'a Edge>
    requires { IsInOrder edges.now.items }
    ensures { option_copied result ≡ find_edge edges.now.items version.now }
{
    let above = first_above(edges, version);
    if above == 0 {
        return None;
    }
    let edge = &edges[above - 1];
    if edge.label.begins(version) {
        Some(edge)
    } else {
        None
    }
}

fn are_apart(edges: &VecDeque<Edge>, label: &Version) -> bool
    ensures { result ≡ list_all (is_apart_from label.now) edges.now.items }
{
    edges.iter().all(|edge| !label.begins(&edge.label) && !edge.label.begins(label))
}

// Whether the edge leads to the node, and its label goes on from this one.
fn is_successor(edge: &Edge, node: NodeKey, label: &Version) -> bool
    ensures { result ≡ is_successor node label.now edge.now }
{
    match edge.pred {
        Some(pred) => pred == node && label.begins(&edge.label),
        None => false,
    }
}

// How many of the edges lead to the node, with a label that goes on from this one.
fn count_successors(edges: &[Edge], node: NodeKey, label: &Version) -> usize
    ensures counted { result ≡ count_by (is_successor node label.now) edges.now }
    ensures within { result ≤ length edges.now }
{
    let mut count = 0usize;
    for edge in edges {
        if is_successor(edge, node, label) {
            count += 1;
        }
    }
    count
}

impl Edges {
    /// A list of one edge.
    pub fn single(alloc: Global, edge: Edge) -> Result<Edges, NoMemory>
        ensures { IfOk result (λ edges. edges ≡ edge ∷ []) }
    {
        let mut list = VecDeque::with_capacity(alloc, 1)?;
        list.push_back(edge)?;
        Ok(Edges { list })
    }

    /// How many edges there are.
    pub fn len(&self) -> usize
        ensures { result ≡ length self.now }
    {
        self.list.len()
    }

    /// Whether there is no edge.
    pub fn is_empty(&self) -> bool
        ensures { result ≡ (length self.now == 0) }
    {
        self.list.is_empty()
    }

    /// Adds an edge at its place in the order of labels.
    pub fn insert(&mut self, edge: Edge) -> Result<(), NoMemory>
        requires { IsApartFrom edge.label self.old }
        ensures ok { OnOk result (self.new ≡ with_edge edge self.old) }
        ensures err { OnErr result (self.new ≡ self.old) }
    {
        let place = first_above(&self.list, &edge.label);
        self.list.insert(place, edge)?;
        Ok(())
    }

    /// The edge whose label is a prefix of the version.
    pub fn find(&self, version: &Version) -> &Edge
        requires { HasEdge self.now version.now }
        ensures { find_edge self.now version.now ≡ Some result.now }
    {
        let place = place(&self.list, version);
        &self.list[place]
    }

    /// Counts the edge whose label is a prefix of the version one higher.
    pub fn count_up(&mut self, version: &Version)
        requires leads { HasEdge self.old version.now }
        requires room { ForSome (find_edge self.old version.now) (λ edge. edge.count + 1 < 2 ^ 64) }
        ensures { self.new ≡ counted_up self.old version.now }
    {
        let place = place(&self.list, version);
        self.list[place].count += 1;
    }

    /// Counts the edge whose label is a prefix of the version one lower.
    pub fn count_down(&mut self, version: &Version)
        requires leads { HasEdge self.old version.now }
        requires counted { ForSome (find_edge self.old version.now) (λ edge. 0 < edge.count) }
        ensures { self.new ≡ counted_down self.old version.now }
    {
        let place = place(&self.list, version);
        self.list[place].count -= 1;
    }

    /// Removes the edge whose label is a prefix of the version.
    pub fn remove(&mut self, version: &Version) -> Edge
        requires { HasEdge self.old version.now }
        ensures removed { find_edge self.old version.now ≡ Some result }
        ensures rest { self.new ≡ without_edge self.old version.now }
    {
        let place = place(&self.list, version);
        match self.list.remove(place) {
            Some(edge) => edge,
            None => unreachable!(),
        }
    }

    /// The edge whose label is a prefix of the version, where there is one.
    pub fn get(&self, version: &Version) -> Option<&Edge>
        ensures { option_copied result ≡ find_edge self.now version.now }
    {
        find_in(&self.list, version)
    }

    /// Whether there is such an edge, and it can be counted one higher.
    pub fn has_room(&self, version: &Version) -> bool
        ensures { IsTrue result ↔ HasRoom self.now version.now }
    {
        match self.get(version) {
            Some(edge) => edge.count < u64::MAX,
            None => false,
        }
    }

    /// Whether no label is a prefix of this one or has this one as a prefix.
    pub fn is_apart(&self, label: &Version) -> bool
        ensures { IsTrue result ↔ IsApartFrom label.now self.now }
    {
        are_apart(&self.list, label)
    }

    /// How many of the edges lead to the node, with a label that goes on from this one.
    pub fn successors(&self, node: NodeKey, label: &Version) -> usize
        ensures { result ≡ count_by (is_successor node label.now) self.now }
    {
        let (front, back) = self.list.as_slices();
        count_successors(front, node, label) + count_successors(back, node, label)
    }
}

//! Puts and releases of many edges.
ghost use Rattle.std.specs.Prelude.{IfOk, OnOk};
ghost use Rattle.std.specs.Option.{ForSome};
ghost use Rattle.shared_buffer.specs.Release.{HasHold};

use cep_event::{Event, NoMemory, ValueList};
use dewey_version::Version;
use shared_buffer::{Buffer, EventKey, NodeKey};
use std::alloc::Global;
use thiserror::Error;

/// Why there was no load, or why it ended early. Unmet means that a condition of the buffer was not met, which no load
/// causes.
#[derive(Clone, Copy, Debug, Error)]
pub enum Stop {
    #[error("two numbers are needed")]
    Words,
    #[error("want of memory")]
    NoMemory,
    #[error("a condition was not met")]
    Unmet,
}

impl From<NoMemory> for Stop {
    fn from(_error: NoMemory) -> Stop {
        Stop::NoMemory
    }
}

fn event(alloc: Global, position: u32) -> Event {
    Event {
        row: position,
        ts: i64::from(position),
        type_no: 0,
        values: ValueList::new(alloc),
    }
}

/// Puts an edge after the last one, and takes the hold from that.
fn grow(
    buffer: &mut Buffer,
    event: EventKey,
    label: &Version,
    last: Option<NodeKey>,
) -> Result<NodeKey, Stop>
    requires { ForSome last (λ node. HasHold buffer.old.nodes node label.now) }
    ensures { IfOk result (λ node. HasHold buffer.new.nodes node label.now) }
{
    let pred = last.as_ref().copied();
    if !buffer.can_put(0, 1, event, pred, label) {
        return Err(Stop::Unmet);
    }
    let pred = last.as_ref().copied();
    let node = buffer.put(0, 1, event, pred, label)?;
    if let Some(last) = last {
        if node == last {
            return Err(Stop::Unmet);
        }
        buffer.release(last, label);
    }
    Ok(node)
}

/// Puts an edge on a new event of this position after the last one, and takes the hold from that.
fn link(
    alloc: Global,
    buffer: &mut Buffer,
    label: &Version,
    position: u32,
    last: Option<NodeKey>,
) -> Result<NodeKey, Stop>
    requires { ForSome last (λ node. HasHold buffer.old.nodes node label.now) }
    ensures { IfOk result (λ node. HasHold buffer.new.nodes node label.now) }
{
    let key = buffer.add_event(event(alloc, position), position)?;
    let node = grow(buffer, key, label, last)?;
    if !buffer.is_pinned(key) {
        return Err(Stop::Unmet);
    }
    buffer.settle(key);
    Ok(node)
}

/// Puts a chain of an edge and as many more, each on an event of its own, of which the last one alone stays held.
pub fn chain(
    alloc: Global,
    buffer: &mut Buffer,
    label: &Version,
    more: u32,
) -> Result<NodeKey, Stop>
    ensures { IfOk result (λ node. HasHold buffer.new.nodes node label.now) }
{
    let mut last = link(alloc, buffer, label, 0, None)?;
    for before in 0..more {
        last = link(alloc, buffer, label, before + 1, Some(last))?;
    }
    Ok(last)
}

/// Puts an edge after the last one, on another node than that, and releases it.
fn put_and_release(
    buffer: &mut Buffer,
    event: EventKey,
    label: &Version,
    last: NodeKey,
) -> Result<(), Stop>
    requires { HasHold buffer.old.nodes last label.now }
    ensures { OnOk result (HasHold buffer.new.nodes last label.now) }
{
    if !buffer.can_put(0, 2, event, Some(last), label) {
        return Err(Stop::Unmet);
    }
    let node = buffer.put(0, 2, event, Some(last), label)?;
    if node == last {
        return Err(Stop::Unmet);
    }
    buffer.release(node, label);
    Ok(())
}

/// Puts and releases as many edges, one after the other, on one event of this position.
pub fn beside(
    alloc: Global,
    buffer: &mut Buffer,
    label: &Version,
    last: NodeKey,
    position: u32,
    count: u32,
) -> Result<(), Stop>
    requires { HasHold buffer.old.nodes last label.now }
    ensures { OnOk result (HasHold buffer.new.nodes last label.now) }
{
    let key = buffer.add_event(event(alloc, position), position)?;
    for _ in 0..count {
        put_and_release(buffer, key, label, last)?;
    }
    if !buffer.is_pinned(key) {
        return Err(Stop::Unmet);
    }
    buffer.settle(key);
    Ok(())
}

/// The version of the one path.
pub fn path_version(alloc: Global) -> Result<Version, Stop> {
    Ok(Version::empty(alloc).child(0)?.child(0)?)
}

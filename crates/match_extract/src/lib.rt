//! The events of a match, read from the buffer that it shares.
#![tactic(auto)]

ghost use Rattle.std.specs.Prelude.{◌≡◌, List, IfOk};
ghost use Rattle.cep_plan.specs.declared.item.Taken.{Taken as TakenRow};
ghost use Rattle.shared_buffer.specs.Nodes.{HasEdgeAt};
ghost use Rattle.match_extract.specs.Path.{IsPath};

use cep_event::NoMemory;
use cep_plan::{Taken, TakenList};
use dewey_version::Version;
use shared_buffer::{Buffer, NodeKey};
use std::alloc::Global;

/// The events on the one path that the version goes from the node, from the first one on, as copies.
pub fn extract(
    alloc: Global,
    buffer: &Buffer,
    node: NodeKey,
    version: &Version,
) -> Result<TakenList, NoMemory>
    requires { HasEdgeAt buffer.now.nodes node version.now }
    ensures path { IfOk result (λ taken. IsPath buffer.now version.now node taken) }
    ensures only { IfOk result (λ taken. (other : List TakenRow) → IsPath buffer.now version.now node other → other ≡ taken) }
{
    let mut taken = Vec::new(alloc);
    let mut next = Some(node);
    while let Some(key) = next {
        let link = buffer.link(key, version);
        let event = buffer.event(link.event).copy()?;
        taken.push(Taken {
            stage: link.stage,
            position: link.position,
            event,
        })?;
        next = link.pred;
    }
    taken.reverse();
    Ok(TakenList::from_vec(taken))
}

#[cfg(test)]
mod tests;

//! The nodes that stand on one event, by state.
ghost use Rattle.std.specs.Prelude.{◌≡◌, ◌<◌, ◌++◌, ◌==◌, [], ◌∷◌, length, OnOk, OnErr, IsSome};
ghost use Rattle.std.specs.List.{position_or_len};
ghost use Rattle.shared_buffer.specs.Members.{is_of_state, find_member, without_member};

use crate::keys::NodeKey;
use cep_event::NoMemory;
use smallvec::SmallVec;
use std::alloc::Global;
use std::marker::Model;

/// A state, and the node of that state.
#[derive(Clone, Copy, Debug, Default, PartialEq, Eq)]
pub struct Member {
    pub state: u16,
    pub node: NodeKey,
}

/// The nodes of one event, each under its state.
#[derive(Drop)]
pub struct Members {
    list: SmallVec<Member, 2>,
}

impl Model for Members {
    ghost use Rattle.std.specs.Prelude.{List};
    ghost use Rattle.shared_buffer.specs.declared.members.Member.{Member as One};

    ghost Value = { List One };

    ghost view = { λ m. m.list.items };
}

fn find_in(members: &[Member], state: u16) -> Option<NodeKey>
    ensures { result ≡ find_member members.now state }
{
    members
        .iter()
        .find(|member| member.state == state)
        .map(|member| member.node)
}

fn place(members: &[Member], state: u16) -> usize
    requires { IsSome (find_member members.now state) }
    ensures place { result ≡ position_or_len (is_of_state state) members.now }
    ensures within { result < length members.now }
{
    for (i, member) in members.iter().enumerate() {
        if member.state == state {
            return i;
        }
    }
    unreachable!()
}

impl Members {
    /// No member, which allocates nothing.
    pub fn new(alloc: Global) -> Members
        ensures { result ≡ [] }
    {
        Members {
            list: SmallVec::new(alloc),
        }
    }

    /// Whether there is no member.
    pub fn is_empty(&self) -> bool
        ensures { result ≡ (length self.now == 0) }
    {
        self.list.is_empty()
    }

    /// The node of a state.
    pub fn find(&self, state: u16) -> Option<NodeKey>
        ensures { result ≡ find_member self.now state }
    {
        find_in(self.list.as_slice(), state)
    }

    /// Adds a member behind the others.
    pub fn push(&mut self, member: Member) -> Result<(), NoMemory>
        ensures ok { OnOk result (self.new ≡ self.old ++ member ∷ []) }
        ensures err { OnErr result (self.new ≡ self.old) }
    {
        self.list.push(member)?;
        Ok(())
    }

    /// Removes the member of a state.
    pub fn remove(&mut self, state: u16)
        requires { IsSome (find_member self.old state) }
        ensures { self.new ≡ without_member self.old state }
    {
        let place = place(self.list.as_slice(), state);
        let _ = self.list.remove(place);
    }
}

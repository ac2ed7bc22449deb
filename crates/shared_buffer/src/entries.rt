//! Changes of one event among all.
ghost use Rattle.std.specs.Prelude.{◌≡◌, ◌++◌, [], ◌∷◌, Some, OnOk, OnErr, IsSome, IfSome, option_and_then, option_map};
ghost use Rattle.std.specs.Option.{ForSome};
ghost use Rattle.shared_buffer.specs.Slots.{slot_at, with_slot_changed, Changes};
ghost use Rattle.shared_buffer.specs.Members.{find_member};
ghost use Rattle.shared_buffer.specs.Entries.{kept, unpinned, entry_with, entry_without};

use crate::keys::EventKey;
use crate::members::Member;
use crate::node::Entry;
use cep_event::NoMemory;
use slab::Slab;

/// Removes the event of the key where it has no pin and no node.
fn drop_idle(entries: &mut Slab<Entry>, event: EventKey)
    requires { IsSome (slot_at entries.old.slots event) }
    ensures { Changes entries.old.slots entries.new.slots event (option_and_then kept (slot_at entries.old.slots event)) }
{
    let entry = &entries[event.slot()];
    if !entry.row.pinned && entry.members.is_empty() {
        let _ = entries.remove(event.slot());
    }
}

/// Takes the pin of an event, which goes where no node stands on it.
pub fn unpin(entries: &mut Slab<Entry>, event: EventKey)
    requires { IsSome (slot_at entries.old.slots event) }
    ensures { Changes entries.old.slots entries.new.slots event (option_and_then (λ entry. kept (unpinned entry)) (slot_at entries.old.slots event)) }
{
    let entry = &mut entries[event.slot()];
    entry.row.pinned = false;
    drop_idle(entries, event);
}

/// Adds a node to those of an event.
pub fn push_member(
    entries: &mut Slab<Entry>,
    event: EventKey,
    member: Member,
) -> Result<(), NoMemory>
    requires { IsSome (slot_at entries.old.slots event) }
    ensures ok { OnOk result (entries.new.slots ≡ with_slot_changed (entry_with member) entries.old.slots event) }
    ensures err { OnErr result (entries.new.slots ≡ entries.old.slots) }
{
    let entry = &mut entries[event.slot()];
    entry.members.push(member)
}

/// Removes the node of a state from those of an event, which goes where no pin and no other node holds it.
pub fn remove_member(entries: &mut Slab<Entry>, event: EventKey, state: u16)
    requires stands { IsSome (slot_at entries.old.slots event) }
    requires member { ForSome (slot_at entries.old.slots event) (λ entry. IsSome (find_member entry.members state)) }
    ensures { Changes entries.old.slots entries.new.slots event (option_and_then (λ entry. kept (entry_without state entry)) (slot_at entries.old.slots event)) }
{
    let entry = &mut entries[event.slot()];
    entry.members.remove(state);
    drop_idle(entries, event);
}

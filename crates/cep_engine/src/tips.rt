//! Partial matches that the runs show: their events are read from the buffer, and their holds given back.
ghost use Rattle.std.specs.Prelude.{◌≡◌, List, map, IfOk};
ghost use Rattle.cep_event.specs.declared.event.Event.{Event as EventRow};
ghost use Rattle.cep_plan.specs.declared.plan.Plan.{Plan as PlanRow};
ghost use Rattle.cep_plan.specs.Entry.{taken_of};
ghost use Rattle.list_buffer.specs.Held.{Holder, Holds, without_hold};
ghost use Rattle.list_buffer.specs.Listed.{HoldsLists};
ghost use Rattle.run_step.specs.Pins.{KeepsPins};
ghost use Rattle.cep_engine.specs.Tips.{IsHeldTip, IsSomeTip, AreHeldTips, AreSomeTips, AreFreedTips, AreSomeFreed};

use cep_event::NoMemory;
use cep_plan::TakenList;
use match_extract::extract;
use run_judge::TakenLists;
use run_step::{Tip, TipList};
use shared_buffer::Buffer;
use std::alloc::Global;

/// The events of the tip's list, as copies.
pub fn read_list(tip: &Tip, buffer: &Buffer, alloc: Global) -> Result<TakenList, NoMemory>
    requires { IsSomeTip tip.now buffer.now }
    ensures { (plan : PlanRow) (events : List EventRow) (holder : Holder) (held : Holds) → IsHeldTip plan events holder held tip.now buffer.now
        → IfOk result (λ list. list ≡ taken_of events holder.list) }
{
    buffer.facts();
    let list = extract(alloc, buffer, tip.node, &tip.version)?;
    Ok(list)
}

/// The lists of the tips, one by one.
pub fn read_lists(tips: &TipList, buffer: &Buffer, alloc: Global) -> Result<TakenLists, NoMemory>
    requires { AreSomeTips tips.now buffer.now }
    ensures { (plan : PlanRow) (events : List EventRow) (holders : List Holder) (held : Holds)
        → AreHeldTips plan events holders held tips.now buffer.now
        → IfOk result (λ lists. lists ≡ map (λ holder. taken_of events holder.list) holders) }
{
    let mut lists = TakenLists::new(alloc);
    for tip in tips.as_slice() {
        lists.push(read_list(tip, buffer, alloc)?)?;
    }
    Ok(lists)
}

/// Gives back the hold of the tip. It takes no memory.
pub fn release_tip(tip: &Tip, buffer: &mut Buffer)
    requires { IsSomeTip tip.now buffer.old }
    ensures held { (plan : PlanRow) (events : List EventRow) (holder : Holder) (held : Holds) → IsHeldTip plan events holder held tip.now buffer.old
        → HoldsLists plan events (without_hold holder held) buffer.new }
    ensures pins { KeepsPins buffer.old buffer.new }
{
    buffer.facts();
    buffer.release(tip.node, &tip.version);
}

/// Gives back the holds of the tips. It takes no memory.
pub fn release_tips(tips: TipList, buffer: &mut Buffer)
    requires { AreSomeFreed tips buffer.old }
    ensures held { (plan : PlanRow) (events : List EventRow) (holders : List Holder) (held : Holds)
        → AreFreedTips plan events holders held tips buffer.old → HoldsLists plan events held buffer.new }
    ensures pins { KeepsPins buffer.old buffer.new }
{
    for tip in tips.into_vec() {
        release_tip(&tip, buffer);
    }
}

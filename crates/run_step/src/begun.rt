//! The runs of the lists that took an event: one for each wait in the state of a list, and a tip for each that is full.
ghost use Rattle.std.specs.Prelude.{◌≡◌, ℕ, List, IfOk, OnOk};
ghost use Rattle.cep_plan.specs.declared.plan.Plan.{Plan as PlanRow};
ghost use Rattle.cep_event.specs.declared.event.Event.{Event as EventRow};
ghost use Rattle.list_buffer.specs.Held.{Holder, Holds};
ghost use Rattle.run_step.specs.Pins.{KeepsPins};
ghost use Rattle.run_step.specs.Beginning.{CanBegin, CanBeginSome, HasBegun, CanBeginAll, CanBeginAllSome, HasBegunAll, CanBeginWaits, CanBeginWaitsSome, HasBegunWaits, full_in, CanShow, CanShowSome, HasShown};

use crate::digits::waits_at;
use crate::passing::Grown;
use crate::runs::{Run, Tip, TipList, WaitKey};
use cep_event::NoMemory;
use nfa_compile::{Nfa, Wait};
use shared_buffer::Buffer;
use std::alloc::Global;

/// A run on its way into the groups, with the stage that it waits for.
#[derive(Drop)]
pub struct Fresh {
    pub stage: u16,
    pub run: Run,
}

/// New runs, and the lists that are full.
#[derive(Drop)]
pub struct Begun {
    pub fresh: Vec<Fresh>,
    pub tips: TipList,
}

/// The run of the list for the wait with this number. It has a hold of its own.
pub fn begin_run(
    one: &Grown,
    stage: u16,
    number: u16,
    buffer: &mut Buffer,
) -> Result<Fresh, NoMemory>
    requires { CanBeginSome one.now stage (record { state = one.now.state; number = number }) buffer.old }
    ensures begun { (plan : PlanRow) (events : List EventRow) (holder : Holder) (held : Holds)
        → CanBegin plan events holder held one.now stage (record { state = one.now.state; number = number }) buffer.old
        → IfOk result (λ fresh. HasBegun plan events holder held stage fresh buffer.new) }
    ensures pins { OnOk result (KeepsPins buffer.old buffer.new) }
{
    buffer.facts();
    buffer.hold(one.node, &one.version);
    let wait = WaitKey {
        state: one.state,
        number,
    };
    let version = one.version.copy()?;
    let sums = one.sums.copy()?;
    let run = Run {
        wait,
        node: one.node,
        version,
        next_digit: one.next_digit,
        bump: 0,
        start: one.start,
        start_ts: one.start_ts,
        last: one.last,
        sums,
    };
    Ok(Fresh { stage, run })
}

/// Begins a run for each of the waits.
pub fn begin_waits(
    fresh: &mut Vec<Fresh>,
    one: &Grown,
    waits: &[Wait],
    buffer: &mut Buffer,
) -> Result<(), NoMemory>
    requires { CanBeginWaitsSome one.now waits.now buffer.old }
    ensures begun { (plan : PlanRow) (events : List EventRow) (holder : Holder) (held : Holds)
        → CanBeginWaits plan events holder held one.now waits.now buffer.old
        → IfOk result (λ done. HasBegunWaits plan events holder held waits.now fresh.old.items fresh.new.items buffer.new) }
    ensures pins { OnOk result (KeepsPins buffer.old buffer.new) }
{
    let mut number = 0u16;
    for wait in waits {
        fresh.push(begin_run(one, wait.stage, number, buffer)?)?;
        number += 1;
    }
    Ok(())
}

/// Whether the lists of the state with this number are full.
pub fn is_full(nfa: &Nfa, number: u16) -> bool
    ensures { result ≡ full_in nfa.now number }
{
    match number.checked_sub(1) {
        None => false,
        Some(before) => match nfa.took.get(before as usize) {
            None => false,
            Some(took) => took.full,
        },
    }
}

/// Hands the list out where it is full, with the hold of its put. Else the hold goes.
pub fn show(tips: &mut TipList, one: Grown, full: bool, buffer: &mut Buffer) -> Result<(), NoMemory>
    requires { CanShowSome one buffer.old }
    ensures shown { (plan : PlanRow) (events : List EventRow) (holder : Holder) (held : Holds) → CanShow plan events holder held one buffer.old
        → IfOk result (λ done. HasShown plan events holder held full tips.old tips.new buffer.new) }
    ensures pins { OnOk result (KeepsPins buffer.old buffer.new) }
{
    buffer.facts();
    if full {
        tips.push(Tip {
            node: one.node,
            version: one.version,
        })?;
        return Ok(());
    }
    buffer.release(one.node, &one.version);
    Ok(())
}

/// Begins the runs of the lists.
pub fn begin_runs(
    grown: Vec<Grown>,
    nfa: &Nfa,
    buffer: &mut Buffer,
    alloc: Global,
) -> Result<Begun, NoMemory>
    requires { CanBeginAllSome nfa.now grown.items buffer.old }
    ensures begun { (plan : PlanRow) (events : List EventRow) (holders : List Holder) (held : Holds)
        → CanBeginAll plan events nfa.now holders held grown.items buffer.old
        → IfOk result (λ begun. HasBegunAll plan events holders held begun.fresh.items begun.tips buffer.new) }
    ensures pins { OnOk result (KeepsPins buffer.old buffer.new) }
{
    let mut fresh = Vec::new(alloc);
    let mut tips = TipList::new(alloc);
    for one in grown {
        begin_waits(&mut fresh, &one, waits_at(nfa, one.state), buffer)?;
        let full = is_full(nfa, one.state);
        show(&mut tips, one, full, buffer)?;
    }
    Ok(Begun { fresh, tips })
}

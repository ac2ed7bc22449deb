//! The lists that take an event get their edges, and the runs that end give back their holds.
ghost use Rattle.std.specs.Prelude.{◌≡◌, ℕ, [], ◌∷◌, List, IfOk, OnOk, map};
ghost use Rattle.cep_plan.specs.declared.plan.Plan.{Plan as PlanRow};
ghost use Rattle.cep_event.specs.declared.event.Event.{Event as EventRow};
ghost use Rattle.list_buffer.specs.Held.{Holder, Holds, held_by, both_hold, with_hold, without_hold};
ghost use Rattle.list_buffer.specs.Listed.{HoldsLists};
ghost use Rattle.run_step.specs.Runs.{Waiter};
ghost use Rattle.run_step.specs.Putting.{CanPutAll, CanPutSome, HasPut, HasPutAll, IsHeldRun, CanEnd, CanEndSome, CanEndAll, CanEndAllSome, CanPutAllSome};
ghost use Rattle.run_step.specs.Taking.{IsTakeOf, AreTakesOf};
ghost use Rattle.run_step.specs.Pins.{KeepsPins};

use crate::passing::{Grown, Take};
use crate::runs::Run;
use cep_event::NoMemory;
use shared_buffer::{Buffer, EventKey};
use std::alloc::Global;

/// Gives the list its edge, with one hold.
pub fn put_take(take: Take, buffer: &mut Buffer, event: EventKey) -> Result<Grown, NoMemory>
    requires { CanPutSome event take buffer.old }
    ensures put { (plan : PlanRow) (events : List EventRow) (position : ℕ) (waiter : Waiter) (waiters : List Waiter) (held : Holds)
        → CanPutAll plan events position event (waiter ∷ waiters) held buffer.old → IsTakeOf plan events position waiter take
        → IfOk result (λ grown. HasPut plan events position event waiter waiters held grown buffer.new) }
    ensures pins { OnOk result (KeepsPins buffer.old buffer.new) }
{
    buffer.facts();
    let node = buffer.put(take.stage, take.state, event, take.pred, &take.version)?;
    Ok(Grown {
        state: take.state,
        node,
        version: take.version,
        next_digit: take.next_digit,
        start: take.start,
        start_ts: take.start_ts,
        last: take.last,
        sums: take.sums,
    })
}

/// Gives each of the lists its edge, with one hold.
pub fn put_takes(
    takes: Vec<Take>,
    buffer: &mut Buffer,
    event: EventKey,
    alloc: Global,
) -> Result<Vec<Grown>, NoMemory>
    requires { CanPutAllSome event takes.items buffer.old }
    ensures put { (plan : PlanRow) (events : List EventRow) (position : ℕ) (waiters : List Waiter) (held : Holds)
        → CanPutAll plan events position event waiters held buffer.old → AreTakesOf plan events position waiters takes.items
        → IfOk result (λ grown. HasPutAll plan events position waiters held grown.items buffer.new) }
    ensures pins { OnOk result (KeepsPins buffer.old buffer.new) }
{
    let mut grown = Vec::with_capacity(alloc, takes.len())?;
    for take in takes {
        grown.push(put_take(take, buffer, event)?)?;
    }
    Ok(grown)
}

/// Takes the hold of a run that ends.
pub fn end_run(run: &Run, buffer: &mut Buffer)
    requires { CanEndSome run.now buffer.old }
    ensures held { (plan : PlanRow) (events : List EventRow) (holder : Holder) (held : Holds) → CanEnd plan events holder held run.now buffer.old
        → HoldsLists plan events (without_hold holder held) buffer.new }
    ensures pins { KeepsPins buffer.old buffer.new }
{
    buffer.facts();
    buffer.release(run.node, &run.version);
}

/// Takes the hold of a run that ends, and lets the run go.
pub fn finish(run: Run, buffer: &mut Buffer)
    requires { CanEndSome run buffer.old }
    ensures held { (plan : PlanRow) (events : List EventRow) (holder : Holder) (held : Holds) → CanEnd plan events holder held run buffer.old
        → HoldsLists plan events (without_hold holder held) buffer.new }
    ensures pins { KeepsPins buffer.old buffer.new }
{
    end_run(&run, buffer);
}

/// Takes the holds of the runs, which end.
pub fn end_runs(ended: Vec<Run>, buffer: &mut Buffer)
    requires { CanEndAllSome ended.items buffer.old }
    ensures held { (plan : PlanRow) (events : List EventRow) (holders : List Holder) (held : Holds)
        → CanEndAll plan events holders held ended.items buffer.old → HoldsLists plan events held buffer.new }
    ensures pins { KeepsPins buffer.old buffer.new }
{
    for run in ended {
        finish(run, buffer);
    }
}

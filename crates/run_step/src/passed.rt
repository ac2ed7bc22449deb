//! What an event makes of one run.
ghost use Rattle.std.specs.Prelude.{◌≡◌, ◌<◌, ℕ, length, List, [], ◌∷◌, ◌++◌, Some, IfOk};
ghost use Rattle.cep_event.specs.declared.event.Event.{Event as EventRow};
ghost use Rattle.cep_plan.specs.declared.item.Taken.{Taken as TakenRow};
ghost use Rattle.live_laws.specs.Survival.{survives, takes};
ghost use Rattle.cond_sums.specs.Questions.{IsWantedBy};
ghost use Rattle.cond_sums.specs.Kept.{wanted_in};
ghost use Rattle.run_judge.specs.Fate.{IsKeptOf};
ghost use Rattle.run_step.specs.Runs.{Waiter};
ghost use Rattle.run_step.specs.Taking.{IsTakeOf, CanTakeRun, CanTakeSome};
ghost use Rattle.run_step.specs.Passing.{is_taking};
ghost use Rattle.run_step.specs.Noting.{IsNoted, CanNote, CanNoteSome, first_waiter, CanTakeFirst, CanTakeFirstSome, IsFirstNoted};

use crate::digits::{digit_after, label_after, waits_at};
use crate::passing::{Passing, Take};
use crate::runs::Run;
use cep_event::{Event, NoMemory};
use cep_plan::Plan;
use cond_sums::Sums;
use dewey_version::Version;
use nfa_compile::{Nfa, Wait};
use run_judge::{Fate, Last, StageAt};
use shared_buffer::NodeKey;
use std::alloc::Global;

/// The take of the run.
pub fn take_of(
    run: &Run,
    nfa: &Nfa,
    plan: &Plan,
    event: &Event,
    position: u32,
) -> Result<Take, NoMemory>
    requires { CanTakeSome plan.now position run.now nfa.now }
    ensures { (events : List EventRow) (waiter : Waiter) → CanTakeRun plan.now events position waiter run.now nfa.now
        → waiter.stage < length plan.now.stages → IfOk result (λ made. IsTakeOf plan.now (events ++ event.now ∷ []) position waiter made) }
{
    let waits = waits_at(nfa, run.wait.state);
    let number = run.wait.number as usize;
    let wait = &waits[number];
    Ok(Take {
        stage: wait.stage,
        state: wait.state,
        pred: Some(run.node),
        version: label_after(waits, number, wait, &run.version, run.next_digit, run.bump)?,
        next_digit: digit_after(waits, wait, run.next_digit),
        start: run.start,
        start_ts: run.start_ts,
        last: Last {
            stage: wait.stage,
            position,
            ts: event.ts,
        },
        sums: run.sums.after(plan, wait.stage, event)?,
    })
}

/// The take of the start for the wait with this number.
pub fn first_take(
    waits: &[Wait],
    number: usize,
    bump: u64,
    plan: &Plan,
    empty: &Sums,
    event: &Event,
    position: u32,
    alloc: Global,
) -> Result<Take, NoMemory>
    requires { CanTakeFirstSome plan.now position waits.now number bump empty.now }
    ensures { (events : List EventRow) (stage : ℕ) → CanTakeFirst plan.now events position waits.now number stage bump empty.now
        → stage < length plan.now.stages → IfOk result (λ made. IsTakeOf plan.now (events ++ event.now ∷ []) position (first_waiter stage) made) }
{
    let wait = &waits[number];
    let version = Version::empty(alloc);
    Ok(Take {
        stage: wait.stage,
        state: wait.state,
        pred: None,
        version: label_after(waits, number, wait, &version, 0, bump)?,
        next_digit: digit_after(waits, wait, 0),
        start: position,
        start_ts: event.ts,
        last: Last {
            stage: wait.stage,
            position,
            ts: event.ts,
        },
        sums: empty.after(plan, wait.stage, event)?,
    })
}

/// Notes the take of the start, where the event may be taken, and answers how often the wait was taken then.
pub fn note_first(
    bump: u64,
    taken: bool,
    waits: &[Wait],
    number: usize,
    plan: &Plan,
    empty: &Sums,
    event: &Event,
    position: u32,
    takes: &mut Vec<Take>,
    alloc: Global,
) -> Result<u64, NoMemory>
    requires { CanTakeFirstSome plan.now position waits.now number bump empty.now }
    ensures { (events : List EventRow) (stage : ℕ) → CanTakeFirst plan.now events position waits.now number stage bump empty.now
        → taken ≡ is_taking plan.now events event.now (first_waiter stage)
        → IfOk result (λ after. IsFirstNoted plan.now events event.now stage after takes.old.items takes.new.items) }
{
    if !taken {
        return Ok(bump);
    }
    let noted = first_take(waits, number, bump, plan, empty, event, position, alloc)?;
    takes.push(noted)?;
    Ok(bump + 1)
}

/// What the event does to the run, which waits for the stage.
pub fn judged(at: &StageAt<'_>, run: &Run, position: u32) -> Fate
    requires { IsWantedBy at.now.plan (wanted_in run.now.sums) }
    ensures taken { (list : List TakenRow) → IsKeptOf at.now.plan at.now.event list run.now.sums (Some run.now.last) run.now.start_ts
        → result.taken ≡ takes at.now.plan list at.now.stage at.now.event position }
    ensures lives { (list : List TakenRow) → IsKeptOf at.now.plan at.now.event list run.now.sums (Some run.now.last) run.now.start_ts
        → result.lives ≡ survives at.now.plan list at.now.stage at.now.event position }
{
    at.judged(&run.sums, Some(run.last), run.start_ts, position)
}

/// Notes the take of the run, where the event may be taken.
pub fn note_take(
    run: &mut Run,
    taken: bool,
    nfa: &Nfa,
    plan: &Plan,
    event: &Event,
    position: u32,
    passing: &mut Passing,
) -> Result<(), NoMemory>
    requires { CanNoteSome plan.now event.now position run.old nfa.now taken }
    ensures noted { (events : List EventRow) (waiter : Waiter) → CanNote plan.now events event.now position waiter run.old nfa.now taken
        → IfOk result (λ done. IsNoted plan.now events event.now waiter run.new passing.old.takes.items passing.new.takes.items) }
    ensures ended { passing.new.ended ≡ passing.old.ended }
    ensures start { run.new.start ≡ run.old.start }
{
    if !taken {
        return Ok(());
    }
    let noted = take_of(run, nfa, plan, event, position)?;
    passing.takes.push(noted)?;
    run.bump += 1;
    Ok(())
}

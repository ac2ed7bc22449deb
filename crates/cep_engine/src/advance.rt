//! The runs and the buffer by one more event, and the lists of a due.
ghost use Rattle.std.specs.Prelude.{◌≡◌, ◌<◌, ◌^◌, ◌-◌, ◌+◌, List, map, IfOk};
ghost use Rattle.cep_event.specs.declared.event.Event.{Event as EventRow};
ghost use Rattle.cep_plan.specs.declared.plan.Plan.{Plan as PlanRow};
ghost use Rattle.cep_plan.specs.Entry.{taken_of};
ghost use Rattle.nfa_compile.specs.State.{IsCompilable};
ghost use Rattle.nfa_compile.specs.Automaton.{automaton_of};
ghost use Rattle.live_laws.specs.Starts.{Scope, waiting_at, closing_at};
ghost use Rattle.list_runs.specs.Runs.{Admits};
ghost use Rattle.cep_engine.specs.Running.{RunsStand, CanAdvance, HasAdvanced, CanShow};

use crate::tips::{read_lists, release_tips};
use cep_event::{Event, NoMemory};
use cep_plan::{Due, Plan};
use nfa_compile::Nfa;
use run_judge::{TakenLists, in_order};
use run_step::{RunSet, closing, step, waiting};
use shared_buffer::Buffer;
use std::alloc::Global;

/// Takes the event into the runs and the buffer, and tells the matches that it completes, in order.
pub fn advance(
    runs: &mut RunSet,
    buffer: &mut Buffer,
    nfa: &Nfa,
    plan: &Plan,
    event: Event,
    alloc: Global,
) -> Result<TakenLists, NoMemory>
    requires plan { IsCompilable plan.now }
    requires nfa { nfa.now ≡ automaton_of plan.now }
    requires room { runs.old.position < 2 ^ 32 - 1 }
    requires stands { CanAdvance plan.now event runs.old buffer.old }
    ensures advanced { (events : List EventRow) (scope : Scope) → Admits plan.now events scope event
        → RunsStand plan.now events scope runs.old buffer.old
        → IfOk result (λ lists. HasAdvanced plan.now events event scope lists runs.new buffer.new) }
    ensures position { IfOk result (λ lists. runs.new.position ≡ runs.old.position + 1) }
{
    let position = runs.position();
    let key = buffer.add_event(event, position)?;
    let tips = step(runs, buffer, nfa, plan, key)?;
    buffer.settle(key);
    let lists = read_lists(&tips, buffer, alloc)?;
    release_tips(tips, buffer);
    in_order(lists)
}

/// The open lists of the due that are told as timeouts, in order.
pub fn waiting_lists(
    runs: &RunSet,
    buffer: &Buffer,
    nfa: &Nfa,
    due: Due,
    alloc: Global,
) -> Result<TakenLists, NoMemory>
    requires { CanShow nfa.now runs.now buffer.now }
    ensures { (plan : PlanRow) (events : List EventRow) (scope : Scope) → IsCompilable plan → nfa.now ≡ automaton_of plan
        → RunsStand plan events scope runs.now buffer.now
        → IfOk result (λ lists. lists ≡ map (taken_of events) (waiting_at plan events scope due)) }
{
    let tips = waiting(runs, buffer, nfa, due)?;
    let lists = read_lists(&tips, buffer, alloc)?;
    in_order(lists)
}

/// The open lists of the due that are told as matches, in order.
pub fn closing_lists(
    runs: &RunSet,
    buffer: &Buffer,
    nfa: &Nfa,
    due: Due,
    alloc: Global,
) -> Result<TakenLists, NoMemory>
    requires { CanShow nfa.now runs.now buffer.now }
    ensures { (plan : PlanRow) (events : List EventRow) (scope : Scope) → IsCompilable plan → nfa.now ≡ automaton_of plan
        → RunsStand plan events scope runs.now buffer.now
        → IfOk result (λ lists. lists ≡ map (taken_of events) (closing_at plan events scope due)) }
{
    let tips = closing(runs, buffer, nfa, due)?;
    let lists = read_lists(&tips, buffer, alloc)?;
    in_order(lists)
}

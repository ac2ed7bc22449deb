//! The lists whose limit is reached: those that time out, and those that close, due by due, and the end of their runs.
ghost use Rattle.std.specs.Prelude.{◌≡◌, ◌++◌, map, List, IfOk};
ghost use Rattle.cep_event.specs.declared.event.Event.{Event};
ghost use Rattle.cep_plan.specs.declared.plan.Plan.{Plan};
ghost use Rattle.cep_plan.specs.declared.item.Item.TheVariants.{Timeout};
ghost use Rattle.cep_plan.specs.Entry.{taken_of};
ghost use Rattle.live_laws.specs.Starts.{Scope, waiting_at, closing_at, without_due};
ghost use Rattle.nfa_compile.specs.State.{IsCompilable};
ghost use Rattle.nfa_compile.specs.Automaton.{automaton_of};
ghost use Rattle.due_laws.specs.Due.{dues_of, left_of, told_along, scope_after};
ghost use Rattle.cep_engine.specs.Running.{RunsStand, RunsStandSome, CanShow};

use crate::advance::{closing_lists, waiting_lists};
use cep_event::{Moment, NoMemory};
use cep_plan::{Due, Item, ItemList};
use nfa_compile::Nfa;
use run_judge::TakenLists;
use run_step::{RunSet, expire};
use shared_buffer::Buffer;
use std::alloc::Global;
use time_limit::Limits;

/// Lists whose limit is reached.
#[derive(Drop)]
pub struct DueLists {
    /// Those that are neither full nor wait for the end.
    pub timeouts: TakenLists,
    /// Those that wait for the end, and match now.
    pub closed: TakenLists,
}

/// Adds these lists at the end.
pub fn add_lists(lists: &mut TakenLists, more: TakenLists) -> Result<(), NoMemory>
    ensures { IfOk result (λ done. lists.new ≡ lists.old ++ more) }
{
    for list in more.into_vec() {
        lists.push(list)?;
    }
    Ok(())
}

/// Adds the lists as timeouts.
pub fn add_timeouts(items: &mut ItemList, lists: TakenLists) -> Result<(), NoMemory>
    ensures { IfOk result (λ done. items.new ≡ items.old ++ map Timeout lists) }
{
    for list in lists.into_vec() {
        items.push(Item::Timeout(list))?;
    }
    Ok(())
}

/// Lets the runs of the due go, and what the buffer held for them. It takes no memory.
pub fn end_due(runs: &mut RunSet, buffer: &mut Buffer, due: Due)
    requires { RunsStandSome runs.old buffer.old }
    ensures runs { (plan : Plan) (events : List Event) (scope : Scope) → RunsStand plan events scope runs.old buffer.old
        → RunsStand plan events (without_due scope due) runs.new buffer.new }
    ensures position { runs.new.position ≡ runs.old.position }
{
    expire(runs, buffer, due);
}

/// Adds the open lists of the due, and lets their runs go. So a list that is due by its start and by its last event is told once.
pub fn tell_due(
    lists: &mut DueLists,
    runs: &mut RunSet,
    buffer: &mut Buffer,
    nfa: &Nfa,
    due: Due,
    alloc: Global,
) -> Result<(), NoMemory>
    requires { CanShow nfa.now runs.old buffer.old }
    ensures timeouts { (plan : Plan) (events : List Event) (scope : Scope) → IsCompilable plan → nfa.now ≡ automaton_of plan
        → RunsStand plan events scope runs.old buffer.old
        → IfOk result (λ done. lists.new.timeouts ≡ lists.old.timeouts ++ map (taken_of events) (waiting_at plan events scope due)) }
    ensures closed { (plan : Plan) (events : List Event) (scope : Scope) → IsCompilable plan → nfa.now ≡ automaton_of plan
        → RunsStand plan events scope runs.old buffer.old
        → IfOk result (λ done. lists.new.closed ≡ lists.old.closed ++ map (taken_of events) (closing_at plan events scope due)) }
    ensures runs { (plan : Plan) (events : List Event) (scope : Scope) → RunsStand plan events scope runs.old buffer.old
        → IfOk result (λ done. RunsStand plan events (without_due scope due) runs.new buffer.new) }
    ensures position { IfOk result (λ done. runs.new.position ≡ runs.old.position) }
{
    add_lists(
        &mut lists.timeouts,
        waiting_lists(runs, buffer, nfa, due, alloc)?,
    )?;
    add_lists(
        &mut lists.closed,
        closing_lists(runs, buffer, nfa, due, alloc)?,
    )?;
    end_due(runs, buffer, due);
    Ok(())
}

/// Takes out all that is due at the moment, lets the runs of the dues go, and tells their lists, due by due.
pub fn due_lists(
    runs: &mut RunSet,
    buffer: &mut Buffer,
    limits: &mut Limits,
    nfa: &Nfa,
    now: Moment,
    alloc: Global,
) -> Result<DueLists, NoMemory>
    requires { CanShow nfa.now runs.old buffer.old }
    ensures timeouts { (plan : Plan) (events : List Event) (scope : Scope) → IsCompilable plan → nfa.now ≡ automaton_of plan
        → RunsStand plan events scope runs.old buffer.old
        → IfOk result (λ lists. lists.timeouts ≡ map (taken_of events) (told_along (waiting_at plan events) scope (dues_of limits.old now))) }
    ensures closed { (plan : Plan) (events : List Event) (scope : Scope) → IsCompilable plan → nfa.now ≡ automaton_of plan
        → RunsStand plan events scope runs.old buffer.old
        → IfOk result (λ lists. lists.closed ≡ map (taken_of events) (told_along (closing_at plan events) scope (dues_of limits.old now))) }
    ensures runs { (plan : Plan) (events : List Event) (scope : Scope) → IsCompilable plan → nfa.now ≡ automaton_of plan
        → RunsStand plan events scope runs.old buffer.old
        → IfOk result (λ lists. RunsStand plan events (scope_after scope (dues_of limits.old now)) runs.new buffer.new) }
    ensures limits { IfOk result (λ lists. limits.new ≡ left_of limits.old now) }
    ensures position { IfOk result (λ lists. runs.new.position ≡ runs.old.position) }
{
    let mut lists = DueLists {
        timeouts: TakenLists::new(alloc),
        closed: TakenLists::new(alloc),
    };
    while let Some(due) = limits.next_due(now) {
        tell_due(&mut lists, runs, buffer, nfa, due, alloc)?;
    }
    Ok(lists)
}

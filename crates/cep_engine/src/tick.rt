//! One tick: what it makes of the runs, the buffer and the limits, and its kept items.
ghost use Rattle.std.specs.Prelude.{ℕ, ℤ, ◌≡◌, ◌<◌, ◌+◌, ◌-◌, ◌^◌, ◌++◌, [], ◌∷◌, List, Option, Some, IfOk, OnOk, OnErr, map};
ghost use Rattle.cep_event.specs.declared.event.Event.{Event as EventRow};
ghost use Rattle.cep_event.specs.declared.record.Moment.{Moment as MomentRow};
ghost use Rattle.cep_event.specs.declared.record.Moment.TheVariants.{At};
ghost use Rattle.cep_plan.specs.declared.item.Item.{Item};
ghost use Rattle.cep_plan.specs.declared.item.Item.TheVariants.{Match};
ghost use Rattle.cep_plan.specs.Entry.{taken_of};
ghost use Rattle.cep_plan.specs.History.{due_items, matches_at};
ghost use Rattle.cep_plan.specs.Keys.{kept_at};
ghost use Rattle.cep_plan.specs.Skipping.{kept_after};
ghost use Rattle.cep_plan.specs.Tick.{Tick, event_tick, mark_tick};
ghost use Rattle.nfa_compile.specs.State.{IsCompilable};
ghost use Rattle.nfa_compile.specs.Automaton.{automaton_of};
ghost use Rattle.cep_engine.specs.Standing.{PartsAre, PartsAreSome, PartsStand, CanTakeNext, CanTakeEvent, IsLater, ComesLater};
ghost use Rattle.cep_engine.specs.State.{AreKeptBefore, HasRoom};

use crate::advance::advance;
use crate::matches::{add_matches, drop_killed, kept_matches, kill_runs};
use crate::timeouts::{DueLists, add_timeouts, due_lists};
use cep_event::{Event, Moment, NoMemory};
use cep_plan::{ItemList, Plan};
use nfa_compile::Nfa;
use run_judge::in_order;
use run_step::RunSet;
use shared_buffer::Buffer;
use std::alloc::Global;
use std::mem;
use time_limit::Limits;

/// Takes a moment: its kept items are the timeouts, and then the closed matches.
pub fn take_moment(
    runs: &mut RunSet,
    buffer: &mut Buffer,
    limits: &mut Limits,
    nfa: &Nfa,
    plan: &Plan,
    now: Moment,
    alloc: Global,
) -> Result<ItemList, NoMemory>
    requires plan { IsCompilable plan.now }
    requires nfa { nfa.now ≡ automaton_of plan.now }
    requires stands { PartsAreSome plan.now runs.old buffer.old limits.old }
    ensures items { (events : List EventRow) (before : List Item) (last : Option MomentRow)
        → PartsAre plan.now events before last runs.old buffer.old limits.old
        → IfOk result (λ items. items ≡ kept_after plan.now.skip before (due_items plan.now events last now)) }
    ensures parts { (events : List EventRow) (before : List Item) (last : Option MomentRow)
        → PartsAre plan.now events before last runs.old buffer.old limits.old → IsLater last now
        → IfOk result (λ items. PartsAre plan.now events (before ++ items) (Some now) runs.new buffer.new limits.new) }
    ensures position { IfOk result (λ items. runs.new.position ≡ runs.old.position) }
    ensures behind { (position : ℕ) (time : ℤ) → AreKeptBefore position time limits.old → IfOk result (λ items. AreKeptBefore position time limits.new) }
{
    // The position is a `u32`, so each event before it has a next one.
    let _ = runs.position();
    let DueLists { timeouts, closed } = due_lists(runs, buffer, limits, nfa, now, alloc)?;
    let ended = kept_matches(plan.skip, in_order(closed)?)?;
    kill_runs(runs, buffer, plan.skip, &ended);
    drop_killed(limits, plan.skip, &ended);
    let late = in_order(timeouts)?;
    let mut items = ItemList::new(alloc);
    add_timeouts(&mut items, late)?;
    add_matches(&mut items, ended)?;
    Ok(items)
}

/// Takes an event at whose time nothing is due: its kept items are the matches that it completes.
pub fn take_next(
    runs: &mut RunSet,
    buffer: &mut Buffer,
    limits: &mut Limits,
    nfa: &Nfa,
    plan: &Plan,
    event: Event,
    alloc: Global,
) -> Result<ItemList, NoMemory>
    requires plan { IsCompilable plan.now }
    requires nfa { nfa.now ≡ automaton_of plan.now }
    requires limit { HasRoom plan.now }
    requires room { runs.old.position < 2 ^ 32 - 1 }
    requires behind { AreKeptBefore runs.old.position event.ts limits.old }
    requires stands { CanTakeNext plan.now event runs.old buffer.old limits.old }
    ensures items { (events : List EventRow) (before : List Item) → PartsAre plan.now events before (Some (At event.ts)) runs.old buffer.old limits.old
        → IfOk result (λ items. items
        ≡ kept_after plan.now.skip before (map (λ list. Match (taken_of (events ++ event ∷ []) list)) (matches_at plan.now events event))) }
    ensures parts { (events : List EventRow) (before : List Item) → PartsAre plan.now events before (Some (At event.ts)) runs.old buffer.old limits.old
        → IfOk result (λ items. PartsAre plan.now (events ++ event ∷ []) (before ++ items) (Some (At event.ts)) runs.new buffer.new limits.new) }
    ensures position { IfOk result (λ items. runs.new.position ≡ runs.old.position + 1) }
    ensures behind { IfOk result (λ items. AreKeptBefore runs.new.position event.ts limits.new) }
{
    let position = runs.position();
    let time = event.ts;
    let lists = advance(runs, buffer, nfa, plan, event, alloc)?;
    let found = kept_matches(plan.skip, lists)?;
    limits.add(position, time)?;
    kill_runs(runs, buffer, plan.skip, &found);
    drop_killed(limits, plan.skip, &found);
    let mut items = ItemList::new(alloc);
    add_matches(&mut items, found)?;
    Ok(items)
}

/// Takes a mark: its kept items are those of its moment.
pub fn take_mark(
    runs: &mut RunSet,
    buffer: &mut Buffer,
    limits: &mut Limits,
    nfa: &Nfa,
    plan: &Plan,
    now: Moment,
    alloc: Global,
) -> Result<ItemList, NoMemory>
    requires plan { IsCompilable plan.now }
    requires nfa { nfa.now ≡ automaton_of plan.now }
    requires stands { PartsAreSome plan.now runs.old buffer.old limits.old }
    ensures items { (ticks : List Tick) → PartsStand plan.now ticks runs.old buffer.old limits.old
        → IfOk result (λ items. items ≡ kept_at plan.now ticks (mark_tick now)) }
    ensures parts { (ticks : List Tick) → PartsStand plan.now ticks runs.old buffer.old limits.old → ComesLater ticks now
        → IfOk result (λ items. PartsStand plan.now (ticks ++ mark_tick now ∷ []) runs.new buffer.new limits.new) }
    ensures position { IfOk result (λ items. runs.new.position ≡ runs.old.position) }
    ensures behind { (position : ℕ) (time : ℤ) → AreKeptBefore position time limits.old → IfOk result (λ items. AreKeptBefore position time limits.new) }
{
    let items = take_moment(runs, buffer, limits, nfa, plan, now, alloc)?;
    Ok(items)
}

/// Takes an event: first all that its time ends, and then the matches that it completes.
pub fn take_event(
    runs: &mut RunSet,
    buffer: &mut Buffer,
    limits: &mut Limits,
    nfa: &Nfa,
    plan: &Plan,
    event: Event,
    alloc: Global,
) -> Result<ItemList, NoMemory>
    requires plan { IsCompilable plan.now }
    requires nfa { nfa.now ≡ automaton_of plan.now }
    requires limit { HasRoom plan.now }
    requires room { runs.old.position < 2 ^ 32 - 1 }
    requires behind { AreKeptBefore runs.old.position event.ts limits.old }
    requires stands { CanTakeEvent plan.now event runs.old buffer.old limits.old }
    ensures items { (ticks : List Tick) → PartsStand plan.now ticks runs.old buffer.old limits.old → ComesLater ticks (At event.ts)
        → IfOk result (λ items. items ≡ kept_at plan.now ticks (event_tick event)) }
    ensures parts { (ticks : List Tick) → PartsStand plan.now ticks runs.old buffer.old limits.old → ComesLater ticks (At event.ts)
        → IfOk result (λ items. PartsStand plan.now (ticks ++ event_tick event ∷ []) runs.new buffer.new limits.new) }
    ensures position { IfOk result (λ items. runs.new.position ≡ runs.old.position + 1) }
    ensures behind { IfOk result (λ items. AreKeptBefore runs.new.position event.ts limits.new) }
{
    let time = event.ts;
    let mut items = take_moment(runs, buffer, limits, nfa, plan, Moment::At(time), alloc)?;
    let matches = take_next(runs, buffer, limits, nfa, plan, event, alloc)?;
    append(&mut items, matches)?;
    Ok(items)
}

/// Adds these items at the end. Where memory is wanted none is added.
pub fn append(items: &mut ItemList, more: ItemList) -> Result<(), NoMemory>
    ensures ok { OnOk result (items.new ≡ items.old ++ more) }
    ensures err { OnErr result (items.new ≡ items.old) }
{
    let empty = items.emptied();
    let mut all = mem::replace(items, empty).into_vec();
    let mut more = more.into_vec();
    let outcome = all.append(&mut more);
    *items = ItemList::from_vec(all);
    outcome?;
    Ok(())
}

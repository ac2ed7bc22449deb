//! The matches of a tick that the skip strategy keeps, and the starts that they kill.
ghost use Rattle.std.specs.Prelude.{◌≡◌, ◌<◌, ◌-◌, ◌^◌, ◌++◌, ◌&&◌, not, ℕ, ℤ, Bool, true, int_le, List, map, filter, IfOk, Option};
ghost use Rattle.std.specs.List.{list_any, AllByRecursion as Each};
ghost use Rattle.cep_event.specs.declared.event.Event.{Event};
ghost use Rattle.cep_plan.specs.declared.plan.Plan.{Plan};
ghost use Rattle.cep_plan.specs.declared.item.Item.TheVariants.{Match, Timeout};
ghost use Rattle.cep_plan.specs.Skipping.{kept};
ghost use Rattle.live_laws.specs.Starts.{Scope, item_kills_start};
ghost use Rattle.skip_strategy.specs.Range.{is_in};
ghost use Rattle.cep_engine.specs.Small.{AreSmall};
ghost use Rattle.cep_engine.specs.Running.{RunsStand, RunsStandSome, without_starts};
ghost use Rattle.cep_engine.specs.State.{AreKeptBefore};
ghost use Rattle.cep_engine.specs.Reach.{AreInStartOrder, farther, starts_below};

use cep_event::NoMemory;
use cep_plan::{Item, ItemList, Skip, TakenList};
use run_judge::TakenLists;
use run_step::{RunSet, kill};
use shared_buffer::Buffer;
use skip_strategy::cut;
use time_limit::Limits;

/// Up to where starts are killed, with one more range of them.
pub fn farther(reach: u32, range: Option<(u32, u32)>) -> u32
    ensures { result ≡ farther reach range }
{
    match range {
        None => reach,
        Some((_, to)) => { if reach < to { to } else { reach } }
    }
}

/// Whether the list starts below the position.
pub fn starts_below(list: &TakenList, reach: u32) -> bool
    ensures { result ≡ starts_below reach list.now }
{
    match list.get(0) {
        None => false,
        Some(first) => first.position < reach,
    }
}

/// The matches that no kept one before them kills, in order. They come in order of their starts, and each kills from its own start on: so one position tells which of the later starts are killed.
#[tactic(auto, unfolding(cep_plan::specs::Skipping::kept))]
pub fn kept_matches(skip: Skip, lists: TakenLists) -> Result<TakenLists, NoMemory>
    ensures chosen { AreSmall lists → AreInStartOrder lists → IfOk result (λ made. map Match made ≡ kept skip (map Match lists)) }
    ensures small { AreSmall lists → IfOk result (λ made. AreSmall made) }
{
    let mut found = lists.emptied();
    let mut reach = 0;
    for list in lists.into_vec() {
        if !starts_below(&list, reach) {
            reach = farther(reach, cut(skip, &list));
            found.push(list)?;
        }
    }
    Ok(found)
}

/// Lets the runs go that start in the range, and what the buffer held for them. It takes no memory.
pub fn kill_range(runs: &mut RunSet, buffer: &mut Buffer, range: Option<(u32, u32)>)
    requires { RunsStandSome runs.old buffer.old }
    ensures runs { (plan : Plan) (events : List Event) (scope : Scope) → RunsStand plan events scope runs.old buffer.old
        → RunsStand plan events (without_starts scope (is_in range)) runs.new buffer.new }
    ensures position { runs.new.position ≡ runs.old.position }
{
    match range {
        None => {}
        Some((from, to)) => kill(runs, buffer, from, to),
    }
}

/// Takes out the starts in the range. It takes no memory.
pub fn drop_starts(limits: &mut Limits, range: Option<(u32, u32)>)
    ensures { limits.new ≡ record limits.old { starts = filter (λ s. not (is_in range s.position)) limits.old.starts } }
{
    match range {
        None => {}
        Some((from, to)) => limits.drop_range(from, to),
    }
}

/// Lets the runs go that the matches kill, and what the buffer held for them. It takes no memory.
pub fn kill_runs(runs: &mut RunSet, buffer: &mut Buffer, skip: Skip, found: &TakenLists)
    requires { RunsStandSome runs.old buffer.old }
    ensures runs { AreSmall found.now → (plan : Plan) (events : List Event) (scope : Scope) → RunsStand plan events scope runs.old buffer.old
        → RunsStand plan events (without_starts scope (λ p. list_any (item_kills_start skip p) (map Match found.now))) runs.new buffer.new }
    ensures position { runs.new.position ≡ runs.old.position }
{
    for list in found.as_slice() {
        kill_range(runs, buffer, cut(skip, list));
    }
}

/// Takes out the starts that the matches kill. It takes no memory.
pub fn drop_killed(limits: &mut Limits, skip: Skip, found: &TakenLists)
    ensures left { AreSmall found.now
        → limits.new
        ≡ record limits.old { starts = filter (λ s. not (list_any (item_kills_start skip s.position) (map Match found.now))) limits.old.starts } }
    ensures behind { (position : ℕ) (time : ℤ) → AreKeptBefore position time limits.old → AreKeptBefore position time limits.new }
{
    for list in found.as_slice() {
        drop_starts(limits, cut(skip, list));
    }
}

/// Adds the lists as matches.
pub fn add_matches(items: &mut ItemList, lists: TakenLists) -> Result<(), NoMemory>
    ensures { IfOk result (λ done. items.new ≡ items.old ++ map Match lists) }
{
    for list in lists.into_vec() {
        items.push(Item::Match(list))?;
    }
    Ok(())
}

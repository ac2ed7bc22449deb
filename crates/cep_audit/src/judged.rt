//! Whether a given list is a match.
ghost use Rattle.std.specs.Prelude.{◌≡◌, ◌<◌, ◌^◌, ◌&&◌, ◌||◌, length, false, IfOk};
ghost use Rattle.std.specs.Option.{option_map_or};
ghost use Rattle.cep_plan.specs.Entry.{event_at, stages_in};
ghost use Rattle.cep_plan.specs.Follow.{end_stage, is_full};
ghost use Rattle.cep_plan.specs.Limit.{are_in_time};
ghost use Rattle.cep_plan.specs.Partial.{count_before, is_match};
ghost use Rattle.cep_audit.specs.Asked.{entry_of, entries_of, NeverFall, is_behind, comes_next, gap_behind, close, has_taken};
ghost use Rattle.cep_audit.specs.Grown.{IsGrown};

use crate::candidate::fits;
use crate::follow::{is_full, may_follow};
use crate::gap::gap_holds;
use crate::last::last_of;
use crate::limit::{are_in_time, count_before, limit_of};
use cep_event::{Event, NoMemory};
use cep_plan::{Plan, Taken, TakenList};
use std::alloc::Global;

/// An entry of a list that is given: the stage, and the position of its event.
#[derive(Clone, Copy, Debug)]
pub struct Chosen {
    pub stage: u16,
    pub position: u32,
}

fn is_behind(taken: &TakenList, position: u32) -> bool
    ensures { result ≡ is_behind taken.now position }
{
    match last_of(taken) {
        None => true,
        Some(last) => last.position < position,
    }
}

/// Whether the entry may come next.
#[tactic(auto, using(crate::proofs::GrownLaws::known_inside))]
fn comes_next(plan: &Plan, events: &[Event], taken: &TakenList, next: Chosen, event: &Event) -> bool
    requires short { length taken.now < 2 ^ 32 }
    requires inside { next.position < length events.now }
    requires event { event.now ≡ event_at events.now next.position }
    ensures { result ≡ comes_next plan.now events.now taken.now (entry_of next) }
{
    may_follow(plan, taken.as_slice(), next.stage as usize)
        && is_behind(taken, next.position)
        && fits(plan, taken, next.stage as usize, event, next.position)
        && gap_holds(
            plan,
            events,
            taken,
            next.stage as usize,
            next.position as usize,
        )
}

/// The events of the list, where each entry may come next behind those before it.
fn grown(
    alloc: Global,
    plan: &Plan,
    events: &[Event],
    list: &[Chosen],
) -> Result<Option<TakenList>, NoMemory>
    requires { length list.now < 2 ^ 32 }
    ensures { IfOk result (IsGrown plan.now events.now (entries_of list.now)) }
{
    let mut taken = TakenList::new(alloc);
    for chosen in list {
        let next = *chosen;
        match events.get(next.position as usize) {
            None => return Ok(None),
            Some(event) => {
                if !comes_next(plan, events, &taken, next, event) {
                    return Ok(None);
                }
                let event = event.copy()?;
                taken.push(Taken {
                    stage: next.stage,
                    position: next.position,
                    event,
                })?;
            }
        }
    }
    Ok(Some(taken))
}

/// Whether the gap to the end holds up to the first event that isn't below the limit.
fn is_shut(plan: &Plan, events: &[Event], taken: &TakenList, limit: Option<i128>) -> bool
    requires short { length taken.now < 2 ^ 32 }
    requires times { NeverFall events.now }
    ensures { result ≡ option_map_or (λ limit. gap_behind plan.now events.now taken.now (end_stage plan.now) (count_before events.now limit)) limit false }
{
    match limit {
        None => false,
        Some(limit) => {
            let end = plan.stages.len();
            gap_holds(plan, events, taken, end, count_before(events, limit))
        }
    }
}

/// Whether the list closes: the end may follow, and the gap holds up to the first event that isn't below the limit.
fn closes(plan: &Plan, events: &[Event], taken: &TakenList) -> bool
    requires short { length taken.now < 2 ^ 32 }
    requires times { NeverFall events.now }
    ensures { result ≡ close plan.now events.now taken.now }
{
    may_follow(plan, taken.as_slice(), plan.stages.len())
        && is_shut(plan, events, taken, limit_of(plan, taken))
}

fn is_done(plan: &Plan, events: &[Event], taken: &TakenList) -> bool
    requires short { length taken.now < 2 ^ 32 }
    requires times { NeverFall events.now }
    ensures { result ≡ (is_full plan.now (stages_in taken.now) || close plan.now events.now taken.now) }
{
    is_full(plan, taken.as_slice()) || closes(plan, events, taken)
}

/// Whether taken events that grew entry by entry are a match.
fn are_match(plan: &Plan, events: &[Event], taken: &TakenList) -> bool
    requires short { length taken.now < 2 ^ 32 }
    requires times { NeverFall events.now }
    ensures { result ≡ (has_taken taken.now && are_in_time plan.now taken.now
        && (is_full plan.now (stages_in taken.now) || close plan.now events.now taken.now)) }
{
    !taken.is_empty() && are_in_time(plan, taken.as_slice()) && is_done(plan, events, taken)
}

/// Whether the list is a match among the events, whose times don't fall.
pub fn is_match(
    alloc: Global,
    plan: &Plan,
    events: &[Event],
    list: &[Chosen],
) -> Result<bool, NoMemory>
    requires short { length list.now < 2 ^ 32 }
    requires times { NeverFall events.now }
    ensures { IfOk result (λ found. found ≡ is_match plan.now events.now (entries_of list.now)) }
{
    match grown(alloc, plan, events, list)? {
        None => Ok(false),
        Some(taken) => Ok(are_match(plan, events, &taken)),
    }
}

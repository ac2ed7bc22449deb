//! Candidates for a stage, events that satisfy a negation, and events that fit, asked of the list of events taken before.
ghost use Rattle.std.specs.Prelude.{◌≡◌, ◌<◌, ◌^◌, ◌&&◌, not, false, true, length};
ghost use Rattle.std.specs.Option.{option_map_or};
ghost use Rattle.cep_plan.specs.Condition.{condition_holds};
ghost use Rattle.cep_plan.specs.Candidate.{has_type, ends_loop, is_candidate, satisfies, is_between, breaks_next, breaks_followed, keeps_next, comes_directly, fits};
ghost use Rattle.cep_plan.specs.Entry.{last_taken};

use crate::last::last_of;
use cep_event::Event;
use cep_plan::{Cond, Negation, Plan, Stage, TakenList};
use cond_eval::{ListMatched, holds};

fn is_met(plan: &Plan, cond: &Cond, event: &Event, taken: &TakenList) -> bool
    requires { length taken.now < 2 ^ 32 }
    ensures { result ≡ condition_holds plan.now.types event.now taken.now cond.now }
{
    let taken = ListMatched::new(plan, taken);
    holds(plan, cond, event, &taken)
}

fn is_of(of: Option<u16>, event: &Event) -> bool
    ensures { result ≡ has_type of event.now }
{
    match of {
        None => true,
        Some(type_no) => event.type_no == type_no,
    }
}

fn ends_by(plan: &Plan, taken: &TakenList, declared: &Stage, event: &Event) -> bool
    requires { length taken.now < 2 ^ 32 }
    ensures { result ≡ option_map_or (condition_holds plan.now.types event.now taken.now) declared.now.until false }
{
    match &declared.until {
        None => false,
        Some(until) => is_met(plan, until, event, taken),
    }
}

/// Whether the event ends the loop of the stage.
pub fn ends(plan: &Plan, taken: &TakenList, stage: usize, event: &Event) -> bool
    requires { length taken.now < 2 ^ 32 }
    ensures { result ≡ ends_loop plan.now taken.now stage event.now }
{
    match plan.stages.get(stage) {
        None => false,
        Some(declared) => ends_by(plan, taken, declared, event),
    }
}

/// Whether the event is a candidate for the stage.
#[tactic(auto, unfolding(cep_plan::specs::Candidate::is_candidate))]
pub fn is_wanted(plan: &Plan, taken: &TakenList, stage: usize, event: &Event) -> bool
    requires { length taken.now < 2 ^ 32 }
    ensures { result ≡ is_candidate plan.now taken.now stage event.now }
{
    match plan.stages.get(stage) {
        None => false,
        Some(declared) => {
            is_of(declared.of, event)
                && is_met(plan, &declared.cond, event, taken)
                && !ends_by(plan, taken, declared, event)
        }
    }
}

/// Whether the event satisfies the negation.
#[tactic(auto, unfolding(cep_plan::specs::Candidate::satisfies))]
fn meets(plan: &Plan, taken: &TakenList, negation: &Negation, event: &Event) -> bool
    requires { length taken.now < 2 ^ 32 }
    ensures { result ≡ satisfies plan.now taken.now negation.now event.now }
{
    is_of(negation.of, event) && is_met(plan, &negation.cond, event, taken)
}

fn stands_between(before: usize, after: usize, negation: &Negation) -> bool
    ensures { result ≡ is_between before after negation.now }
{
    negation.after as usize == before && before < after
}

fn forbids_next(
    plan: &Plan,
    taken: &TakenList,
    before: usize,
    after: usize,
    negation: &Negation,
    event: &Event,
) -> bool
    requires { length taken.now < 2 ^ 32 }
    ensures { result ≡ (negation.now.next_only && is_between before after negation.now && satisfies plan.now taken.now negation.now event.now) }
{
    negation.next_only
        && stands_between(before, after, negation)
        && meets(plan, taken, negation, event)
}

/// Whether the event satisfies some `notNext` between the two stages.
pub fn is_forbidden_next(
    plan: &Plan,
    taken: &TakenList,
    before: usize,
    after: usize,
    event: &Event,
) -> bool
    requires { length taken.now < 2 ^ 32 }
    ensures { result ≡ breaks_next plan.now taken.now before after event.now }
{
    for negation in plan.negations.as_slice() {
        if forbids_next(plan, taken, before, after, negation, event) {
            return true;
        }
    }
    false
}

fn forbids(
    plan: &Plan,
    taken: &TakenList,
    before: usize,
    after: usize,
    negation: &Negation,
    event: &Event,
) -> bool
    requires { length taken.now < 2 ^ 32 }
    ensures { result ≡ (not negation.now.next_only && is_between before after negation.now && satisfies plan.now taken.now negation.now event.now) }
{
    !negation.next_only
        && stands_between(before, after, negation)
        && meets(plan, taken, negation, event)
}

/// The same of some `notFollowedBy`.
pub fn is_forbidden(
    plan: &Plan,
    taken: &TakenList,
    before: usize,
    after: usize,
    event: &Event,
) -> bool
    requires { length taken.now < 2 ^ 32 }
    ensures { result ≡ breaks_followed plan.now taken.now before after event.now }
{
    for negation in plan.negations.as_slice() {
        if forbids(plan, taken, before, after, negation, event) {
            return true;
        }
    }
    false
}

/// Whether the event keeps what `notNext` asks between the two stages, by whether it directly follows the last event taken.
pub fn is_next_kept(
    plan: &Plan,
    taken: &TakenList,
    before: usize,
    stage: usize,
    directly: bool,
    event: &Event,
) -> bool
    requires { length taken.now < 2 ^ 32 }
    ensures { result ≡ keeps_next plan.now taken.now before stage directly event.now }
{
    !(directly && is_forbidden_next(plan, taken, before, stage, event))
}

/// Whether no `notNext` forbids the event at the position.
fn is_unbroken(plan: &Plan, taken: &TakenList, stage: usize, event: &Event, position: u32) -> bool
    requires { length taken.now < 2 ^ 32 }
    ensures { result ≡ option_map_or (λ last. keeps_next plan.now taken.now last.stage stage (comes_directly position last) event.now)
        (last_taken taken.now) true }
{
    match last_of(taken) {
        None => true,
        Some(last) => {
            let directly = last.position as u64 + 1 == position as u64;
            is_next_kept(plan, taken, last.stage as usize, stage, directly, event)
        }
    }
}

/// Whether the event at the position fits the stage.
#[tactic(auto, unfolding(cep_plan::specs::Candidate::fits))]
pub fn fits(plan: &Plan, taken: &TakenList, stage: usize, event: &Event, position: u32) -> bool
    requires { length taken.now < 2 ^ 32 }
    ensures { result ≡ fits plan.now taken.now stage event.now position }
{
    is_wanted(plan, taken, stage, event) && is_unbroken(plan, taken, stage, event, position)
}

//! Whether a gap holds: each event in it may stand between the last event taken and the next one.
ghost use Rattle.std.specs.Prelude.{◌≡◌, ◌<◌, ◌≤◌, ◌^◌, true, length};
ghost use Rattle.cep_plan.specs.Gap.{contiguity_of, contiguity_allows, spares, gap_spares, gap_between};
ghost use Rattle.cep_plan.specs.Candidate.{is_candidate};
ghost use Rattle.cep_audit.specs.Asked.{are_spared_from, gap_behind};

use crate::candidate::{ends, is_forbidden, is_next_kept, is_wanted};
use crate::last::last_of;
use cep_event::Event;
use cep_plan::{Contiguity, Plan, TakenList};

fn may_pass(contiguity: Contiguity, candidate: bool) -> bool
    ensures { result ≡ contiguity_allows contiguity candidate }
{
    match contiguity {
        Contiguity::Strict => false,
        Contiguity::Relaxed => !candidate,
        Contiguity::Any => true,
    }
}

fn contiguity_between(plan: &Plan, before: usize, stage: usize) -> Contiguity
    ensures { result ≡ contiguity_of plan.now before stage }
{
    match plan.stages.get(stage) {
        None => Contiguity::Any,
        Some(declared) => {
            if before == stage {
                declared.inner
            } else {
                declared.first
            }
        }
    }
}

/// Whether the event may stand in the gap.
fn is_spared(
    plan: &Plan,
    taken: &TakenList,
    before: usize,
    stage: usize,
    directly: bool,
    event: &Event,
) -> bool
    requires { length taken.now < 2 ^ 32 }
    ensures { result ≡ spares plan.now taken.now before stage directly event.now }
{
    let candidate = is_wanted(plan, taken, stage, event);
    may_pass(contiguity_between(plan, before, stage), candidate)
        && if before == stage {
            !ends(plan, taken, stage, event)
        } else {
            is_next_kept(plan, taken, before, stage, directly, event)
                && !is_forbidden(plan, taken, before, stage, event)
        }
}

fn are_spared(plan: &Plan, taken: &TakenList, before: usize, stage: usize, gap: &[Event]) -> bool
    requires { length taken.now < 2 ^ 32 }
    ensures { result ≡ are_spared_from plan.now taken.now before stage true gap.now }
{
    let mut directly = true;
    for event in gap {
        if !is_spared(plan, taken, before, stage, directly, event) {
            return false;
        }
        directly = false;
    }
    true
}

/// The events strictly between two positions.
fn between(events: &[Event], before: u32, after: usize) -> &[Event]
    requires { after ≤ length events.now }
    ensures { result.now ≡ gap_between events.now before after }
{
    let from = before as usize + 1;
    if from < after {
        &events[from..after]
    } else {
        &[]
    }
}

/// Whether the gap behind the taken events up to the position holds for the stage, which may be the end stage.
#[tactic(auto, using(crate::proofs::ListLaws::gap_spares_from))]
pub fn gap_holds(
    plan: &Plan,
    events: &[Event],
    taken: &TakenList,
    stage: usize,
    position: usize,
) -> bool
    requires short { length taken.now < 2 ^ 32 }
    requires position { position ≤ length events.now }
    ensures { result ≡ gap_behind plan.now events.now taken.now stage position }
{
    match last_of(taken) {
        None => true,
        Some(last) => {
            let gap = between(events, last.position, position);
            are_spared(plan, taken, last.stage as usize, stage, gap)
        }
    }
}

//! Which stage may come next, and whether a list is full, by the stages of the events so far.
ghost use Rattle.std.specs.Prelude.{◌≡◌, None, count_by, ◌==◌};
ghost use Rattle.std.specs.List.{last_or};
ghost use Rattle.cep_plan.specs.Entry.{stages_in};
ghost use Rattle.cep_plan.specs.Follow.{all_optional, count_for, has_room, has_enough, may_follow_last, may_come, is_closing, may_end, may_follow, is_full_at, is_full};

use crate::last::last_in;
use cep_plan::{Plan, Taken};

/// The stage of the last event.
#[tactic(auto, using(crate::proofs::ListLaws::last_stage))]
fn last_stage(taken: &[Taken]) -> Option<u16>
    ensures { result ≡ last_or None (stages_in taken.now) }
{
    match last_in(taken) {
        None => None,
        Some(last) => Some(last.stage),
    }
}

fn count_taken(taken: &[Taken], stage: usize) -> usize
    ensures { result ≡ count_by (λ t. t.stage == stage) taken.now }
{
    taken.iter().filter(|t| t.stage as usize == stage).count()
}

/// How many of the events stand for the stage.
#[tactic(auto, using(crate::proofs::ListLaws::count_stages))]
fn count_for(taken: &[Taken], stage: usize) -> usize
    ensures { result ≡ count_for stage (stages_in taken.now) }
{
    count_taken(taken, stage)
}

/// Whether the stages from one number up to another, without the latter, are all optional.
fn are_optional(plan: &Plan, from: usize, to: usize) -> bool
    ensures { result ≡ all_optional plan.now from to }
{
    for place in from..to {
        match plan.stages.get(place) {
            None => return false,
            Some(stage) => {
                if !stage.optional {
                    return false;
                }
            }
        }
    }
    true
}

fn has_room(plan: &Plan, taken: &[Taken], stage: usize) -> bool
    ensures { result ≡ has_room plan.now (stages_in taken.now) stage }
{
    match plan.stages.get(stage) {
        None => false,
        Some(declared) => match declared.max {
            None => true,
            Some(most) => count_for(taken, stage) < most as usize,
        },
    }
}

fn has_enough(plan: &Plan, taken: &[Taken], stage: usize) -> bool
    ensures { result ≡ has_enough plan.now (stages_in taken.now) stage }
{
    match plan.stages.get(stage) {
        None => false,
        Some(declared) => declared.min as usize <= count_for(taken, stage),
    }
}

/// Whether the stage may follow the last one.
fn comes_behind(plan: &Plan, taken: &[Taken], stage: usize, last: Option<u16>) -> bool
    ensures { result ≡ may_follow_last plan.now (stages_in taken.now) stage last }
{
    match last {
        None => are_optional(plan, 0, stage),
        Some(last) => {
            if stage == last as usize {
                has_room(plan, taken, stage)
            } else {
                (last as usize) < stage
                    && has_enough(plan, taken, last as usize)
                    && are_optional(plan, last as usize + 1, stage)
            }
        }
    }
}

fn may_come(plan: &Plan, taken: &[Taken], stage: usize) -> bool
    ensures { result ≡ may_come plan.now (stages_in taken.now) stage }
{
    stage < plan.stages.len() && comes_behind(plan, taken, stage, last_stage(taken))
}

/// Whether a negation closes the pattern.
fn is_closing(plan: &Plan) -> bool
    ensures { result ≡ is_closing plan.now }
{
    let stages = plan.stages.len();
    for negation in plan.negations.as_slice() {
        if negation.after as usize + 1 == stages {
            return true;
        }
    }
    false
}

fn may_end(plan: &Plan, taken: &[Taken]) -> bool
    ensures { result ≡ may_end plan.now (stages_in taken.now) }
{
    is_closing(plan)
        && match last_stage(taken) {
            None => false,
            Some(last) => {
                last as usize + 1 == plan.stages.len() && has_enough(plan, taken, last as usize)
            }
        }
}

/// Whether the stage, which may be the end stage, may follow.
#[tactic(auto, unfolding(cep_plan::specs::Follow::may_follow))]
pub fn may_follow(plan: &Plan, taken: &[Taken], stage: usize) -> bool
    ensures { result ≡ may_follow plan.now (stages_in taken.now) stage }
{
    if stage == plan.stages.len() {
        may_end(plan, taken)
    } else {
        may_come(plan, taken, stage)
    }
}

fn is_full_at(plan: &Plan, taken: &[Taken], last: u16) -> bool
    ensures { result ≡ is_full_at plan.now (stages_in taken.now) last }
{
    has_enough(plan, taken, last as usize)
        && are_optional(plan, last as usize + 1, plan.stages.len())
}

/// Whether the events fill the pattern.
#[tactic(auto, unfolding(cep_plan::specs::Follow::is_full))]
pub fn is_full(plan: &Plan, taken: &[Taken]) -> bool
    ensures { result ≡ is_full plan.now (stages_in taken.now) }
{
    !is_closing(plan)
        && match last_stage(taken) {
            None => false,
            Some(last) => is_full_at(plan, taken, last),
        }
}

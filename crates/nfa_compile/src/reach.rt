//! Which stage may come behind a state.
ghost use Rattle.std.specs.Prelude.{◌≡◌, ◌≤◌, ◌<◌, ◌+◌, length, IfSome, Some};
ghost use Rattle.std.specs.List.{last_or};
ghost use Rattle.std.specs.Prelude.{None};
ghost use Rattle.cep_plan.specs.Follow.{all_optional, is_below, has_room, has_enough, may_follow_last, end_stage, is_closing, may_follow, is_full_at, is_full};
ghost use Rattle.nfa_compile.specs.State.{stages_at, stages_behind};
ghost use Rattle.nfa_compile.specs.Passing.{first_behind, optional_at};

use crate::state::State;
use cep_plan::Plan;

/// The stage of the state, where there is one.
#[tactic(auto, using(crate::proofs::CountLaws::last_same))]
pub fn last_stage(reached: Option<State>) -> Option<u16>
    requires { IfSome reached (λ s. 1 ≤ s.count) }
    ensures { result ≡ last_or None (stages_behind reached) }
{
    match reached {
        None => None,
        Some(state) => Some(state.stage),
    }
}

/// Whether all stages from one up to another, without the latter, are optional.
pub fn are_optional(plan: &Plan, from: usize, to: usize) -> bool
    ensures { result ≡ all_optional plan.now from to }
{
    for place in from..to {
        match plan.stages.get(place) {
            None => return false,
            Some(stage) => {
                if !stage.optional {
                    return false;
                }
            }
        }
    }
    true
}

/// Whether the number is below the greatest one, if there is a greatest one.
fn is_below(count: u32, greatest: Option<u32>) -> bool
    ensures { result ≡ is_below count greatest }
{
    match greatest {
        None => true,
        Some(greatest) => count < greatest,
    }
}

/// The first stage behind the state, or the first one of all.
pub fn first_behind(reached: Option<State>) -> usize
    ensures { result ≡ first_behind reached }
{
    match reached {
        None => 0,
        Some(state) => state.stage as usize + 1,
    }
}

fn is_optional(plan: &Plan, stage: u16) -> bool
    ensures { result ≡ optional_at plan.now stage }
{
    match plan.stages.get(stage as usize) {
        None => false,
        Some(declared) => declared.optional,
    }
}

/// Whether all stages from one up to this one are optional, with this one too, where it is known whether all before it are.
#[tactic(auto, using(crate::proofs::RangeLaws::optional_more))]
pub fn stays_open(plan: &Plan, from: usize, stage: u16, passable: bool) -> bool
    requires { passable ≡ all_optional plan.now from stage }
    ensures { result ≡ all_optional plan.now from (stage + 1) }
{
    passable && ((stage as usize) < from || is_optional(plan, stage))
}

/// Whether the state's stage may have one more event.
#[tactic(auto, using(crate::proofs::CountLaws::count_same))]
pub fn is_open(plan: &Plan, state: State) -> bool
    ensures { result ≡ has_room plan.now (stages_at state) state.stage }
{
    match plan.stages.get(state.stage as usize) {
        None => false,
        Some(declared) => is_below(state.count, declared.max),
    }
}

/// Whether the state's stage has as many events as it needs.
pub fn is_filled(plan: &Plan, state: State) -> bool
    ensures { result ≡ has_enough plan.now (stages_at state) state.stage }
{
    match plan.stages.get(state.stage as usize) {
        None => false,
        Some(declared) => declared.min <= state.count,
    }
}

/// Whether the stage may come behind the state, by whether all stages between are optional.
pub fn comes_after(plan: &Plan, state: State, stage: u16, passable: bool) -> bool
    requires { passable ≡ all_optional plan.now (state.stage + 1) stage }
    ensures { result ≡ may_follow_last plan.now (stages_at state) stage (Some state.stage) }
{
    if stage == state.stage {
        is_open(plan, state)
    } else {
        state.stage < stage && is_filled(plan, state) && passable
    }
}

/// Whether the stage may come first, or behind a state.
pub fn comes_next(plan: &Plan, reached: Option<State>, stage: u16, passable: bool) -> bool
    requires reached { IfSome reached (λ s. 1 ≤ s.count) }
    requires passable { passable ≡ all_optional plan.now (first_behind reached) stage }
    ensures { result ≡ may_follow_last plan.now (stages_behind reached) stage (last_or None (stages_behind reached)) }
{
    match reached {
        None => passable,
        Some(state) => comes_after(plan, state, stage, passable),
    }
}

/// Whether the stage of the plan may come first, or behind a state.
#[tactic(auto, using(crate::proofs::EndLaws::follows_inside))]
pub fn may_come(plan: &Plan, reached: Option<State>, stage: u16, passable: bool) -> bool
    requires inside { stage < length plan.now.stages }
    requires reached { IfSome reached (λ s. 1 ≤ s.count) }
    requires passable { passable ≡ all_optional plan.now (first_behind reached) stage }
    ensures { result ≡ may_follow plan.now (stages_behind reached) stage }
{
    comes_next(plan, reached, stage, passable)
}

/// Whether a negation closes the pattern.
fn is_closing(plan: &Plan) -> bool
    ensures { result ≡ is_closing plan.now }
{
    let stages = plan.stages.len();
    for negation in plan.negations.as_slice() {
        if negation.after as usize + 1 == stages {
            return true;
        }
    }
    false
}

/// Whether the end may come behind the state. It never comes first.
#[tactic(auto, using(crate::proofs::EndLaws::follows_end, crate::proofs::CountLaws::last_same))]
pub fn may_end(plan: &Plan, reached: Option<State>) -> bool
    requires { IfSome reached (λ s. 1 ≤ s.count) }
    ensures { result ≡ may_follow plan.now (stages_behind reached) (end_stage plan.now) }
{
    match reached {
        None => false,
        Some(state) => {
            state.stage as usize + 1 == plan.stages.len()
                && is_filled(plan, state)
                && is_closing(plan)
        }
    }
}

/// Whether the state has as many events as its stage needs, and all later stages are optional.
fn has_all(plan: &Plan, state: State) -> bool
    ensures { result ≡ is_full_at plan.now (stages_at state) state.stage }
{
    is_filled(plan, state) && are_optional(plan, state.stage as usize + 1, plan.stages.len())
}

/// Whether the lists of the state are full.
#[tactic(auto, using(crate::proofs::CountLaws::full_at))]
pub fn is_complete(plan: &Plan, state: State) -> bool
    requires { 1 ≤ state.count }
    ensures { result ≡ is_full plan.now (stages_at state) }
{
    !is_closing(plan) && has_all(plan, state)
}

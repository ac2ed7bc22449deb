//! States: a stage, and a number of its events.
ghost use Rattle.std.specs.Prelude.{◌≡◌, ◌≤◌, ◌+◌, ◌++◌, ◌∷◌, []};
ghost use Rattle.std.specs.List.{sum_by};
ghost use Rattle.nfa_compile.specs.State as spec;

use cep_plan::{Plan, Stage};

/// A stage, and a number of its events.
#[derive(Clone, Copy, Debug)]
pub struct State {
    pub stage: u16,
    pub count: u32,
}

/// The greatest count of the stage.
pub fn greatest_count(stage: &Stage) -> u32
    ensures { result ≡ spec.greatest_count stage.now }
{
    match stage.max {
        None => stage.min,
        Some(greatest) => greatest,
    }
}

/// The greatest count of the stage with this number.
pub fn greatest_at(plan: &Plan, stage: u16) -> u32
    ensures { result ≡ spec.greatest_at plan.now stage }
{
    match plan.stages.get(stage as usize) {
        None => 0,
        Some(declared) => greatest_count(declared),
    }
}

/// How many states the stages before the next one have, from how many those before this one have.
#[tactic(auto, using(crate::proofs::NumberLaws::states_within, crate::proofs::NumberLaws::states_more))]
pub fn states_before_next(plan: &Plan, stage: u16, before: u32) -> u32
    requires states { sum_by spec.greatest_count plan.now.stages ≤ 1024 }
    requires before { before ≡ spec.states_before plan.now stage }
    ensures { result ≡ spec.states_before plan.now (stage + 1) }
{
    before + greatest_at(plan, stage)
}

/// The count of the stage behind a state, or behind none, with one more event of it.
pub fn count_behind(plan: &Plan, reached: Option<State>, stage: u16) -> u32
    ensures exact { result ≡ spec.count_in plan.now (spec.stages_behind reached ++ stage ∷ []) stage }
    ensures most { result ≤ spec.greatest_at plan.now stage }
{
    let count = match reached {
        None => 1,
        Some(state) => {
            if state.stage == stage {
                state.count.saturating_add(1)
            } else {
                1
            }
        }
    };
    count.min(greatest_at(plan, stage))
}

/// Whether the state has no end.
pub fn is_open_ended(plan: &Plan, stage: u16, count: u32) -> bool
    ensures { result ≡ spec.is_open_ended plan.now stage count }
{
    match plan.stages.get(stage as usize) {
        None => false,
        Some(declared) => declared.max.is_none() && count == declared.min,
    }
}

//! Which plans are compiled.
ghost use Rattle.std.specs.Prelude.{◌≡◌, ◌↔◌, IsTrue, nat_le};
ghost use Rattle.std.specs.List.{list_all, sum_by};
ghost use Rattle.nfa_compile.specs.State as spec;

use crate::state::greatest_count;
use cep_plan::{Plan, Stage};

/// How many states an automaton has at most.
const MOST_STATES: u32 = 1024;

fn has_bounds(stage: &Stage) -> bool
    ensures { result ≡ spec.has_bounds stage.now }
{
    1 <= stage.min && stage.min <= greatest_count(stage)
}

fn have_bounds(stages: &[Stage]) -> bool
    ensures { result ≡ list_all spec.has_bounds stages.now }
{
    for stage in stages {
        if !has_bounds(stage) {
            return false;
        }
    }
    true
}

fn have_few_states(stages: &[Stage]) -> bool
    ensures { result ≡ nat_le (sum_by spec.greatest_count stages.now) 1024 }
{
    let mut states: u32 = 0;
    for stage in stages {
        let more = greatest_count(stage);
        if MOST_STATES - states < more {
            return false;
        }
        states += more;
    }
    true
}

/// Whether the plan is compiled: it has at most 64 stages, 64 negations and 1,024 states, and each stage needs at least one event and takes at most no fewer than it needs.
pub fn is_compilable(plan: &Plan) -> bool
    ensures { IsTrue result ↔ spec.IsCompilable plan.now }
{
    let stages = plan.stages.as_slice();
    stages.len() <= 64
        && plan.negations.len() <= 64
        && have_bounds(stages)
        && have_few_states(stages)
}

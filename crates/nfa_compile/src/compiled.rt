//! The automaton of a plan.
ghost use Rattle.std.specs.Prelude.{◌≡◌, ◌≤◌, ◌<◌, ◌++◌, map, length, IfOk, OnOk};
ghost use Rattle.nfa_compile.specs.State.{states_at, states_of, IsCompilable};
ghost use Rattle.nfa_compile.specs.Automaton as spec;

use crate::nfa::{Nfa, Took, TookList};
use crate::reach::is_complete;
use crate::state::{State, greatest_at, is_open_ended};
use crate::waiting::waits_of;
use cep_event::NoMemory;
use cep_plan::Plan;
use std::alloc::Global;

/// The state with what it waits for.
#[tactic(auto, unfolding(crate::specs::Automaton::took_of))]
fn took_of(alloc: Global, plan: &Plan, state: State) -> Result<Took, NoMemory>
    requires plan { IsCompilable plan.now }
    requires count { 1 ≤ state.count }
    ensures { IfOk result (λ made. made ≡ spec.took_of plan.now state) }
{
    let proceed = waits_of(alloc, plan, Some(state))?;
    Ok(Took {
        stage: state.stage,
        count: state.count,
        open_ended: is_open_ended(plan, state.stage, state.count),
        full: is_complete(plan, state),
        proceed,
    })
}

/// Adds the states of a stage.
fn add_states(alloc: Global, plan: &Plan, took: &mut TookList, stage: u16) -> Result<(), NoMemory>
    requires { IsCompilable plan.now }
    ensures { OnOk result (took.new ≡ took.old ++ map (spec.took_of plan.now) (states_at plan.now stage)) }
{
    for before in 0..greatest_at(plan, stage) {
        let count = before + 1;
        took.push(took_of(alloc, plan, State { stage, count })?)?;
    }
    Ok(())
}

/// All states, stage by stage.
#[tactic(auto, using(crate::proofs::StateListLaws::stages_more), unfolding(crate::specs::State::states_of))]
fn all_states(alloc: Global, plan: &Plan) -> Result<TookList, NoMemory>
    requires { IsCompilable plan.now }
    ensures { IfOk result (λ made. made ≡ map (spec.took_of plan.now) (states_of plan.now)) }
{
    let mut took = TookList::new(alloc);
    for stage in 0..plan.stages.len() {
        add_states(alloc, plan, &mut took, stage as u16)?;
    }
    Ok(took)
}

/// The automaton of the plan: a state for each stage and each count from 1 to its greatest number or, where it has none, to the number that it needs. Each state waits for the stages that may follow its lists, in order of stage.
#[tactic(auto, unfolding(crate::specs::Automaton::automaton_of))]
pub fn compile(alloc: Global, plan: &Plan) -> Result<Nfa, NoMemory>
    requires { IsCompilable plan.now }
    ensures { IfOk result (λ nfa. nfa ≡ spec.automaton_of plan.now) }
{
    let took = all_states(alloc, plan)?;
    let start = waits_of(alloc, plan, None)?;
    Ok(Nfa { took, start })
}

//! What a state waits for.
ghost use Rattle.std.specs.Prelude.{◌≡◌, ◌≤◌, ◌<◌, ◌++◌, ◌∷◌, [], IfSome, IfOk, OnOk, length, map, filter};
ghost use Rattle.std.specs.List.{sum_by, last_or};
ghost use Rattle.cep_plan.specs.Candidate.{is_between};
ghost use Rattle.cep_plan.specs.Gap.{contiguity_of};
ghost use Rattle.nfa_compile.specs.State.{greatest_count, stages_behind, states_before};
ghost use Rattle.nfa_compile.specs.Passing.{first_behind};
ghost use Rattle.cep_plan.specs.Follow.{all_optional, end_stage, may_follow};
ghost use Rattle.nfa_compile.specs.Automaton as spec;

use crate::nfa::{Wait, WaitList};
use crate::reach::{first_behind, last_stage, may_come, may_end, stays_open};
use crate::state::{State, count_behind, states_before_next};
use cep_event::{NoMemory, NumberList};
use cep_plan::{Contiguity, Plan};
use std::alloc::Global;

/// The contiguity of a step from one stage to another.
pub fn contiguity_between(plan: &Plan, last: u16, stage: u16) -> Contiguity
    ensures { result ≡ contiguity_of plan.now last stage }
{
    match plan.stages.get(stage as usize) {
        None => Contiguity::Any,
        Some(declared) => {
            if last == stage {
                declared.inner
            } else {
                declared.first
            }
        }
    }
}

/// Which events may stand between the last one, if there is one, and the next.
fn mode_behind(plan: &Plan, last: Option<u16>, stage: u16) -> Contiguity
    ensures { result ≡ spec.mode_behind plan.now last stage }
{
    match last {
        None => Contiguity::Any,
        Some(last) => contiguity_between(plan, last, stage),
    }
}

fn is_chaining(mode: Contiguity) -> bool
    ensures { result ≡ spec.is_chaining mode }
{
    match mode {
        Contiguity::Strict => true,
        Contiguity::Relaxed => true,
        Contiguity::Any => false,
    }
}

/// Whether the step is one of a strict or relaxed loop.
fn is_same_chain(plan: &Plan, last: Option<u16>, stage: u16) -> bool
    ensures { result ≡ spec.is_same_chain plan.now last stage }
{
    match last {
        None => false,
        Some(last) => last == stage && is_chaining(contiguity_between(plan, last, stage)),
    }
}

/// Whether the negation with this number stands between the two stages.
fn stands_between(plan: &Plan, last: u16, stage: u16, number: u16) -> bool
    ensures { result ≡ spec.stands_between plan.now last stage number }
{
    match plan.negations.get(number as usize) {
        None => false,
        Some(negation) => negation.after == last && last < stage,
    }
}

/// The numbers of the negations between the two stages, in order.
fn negations_between(
    alloc: Global,
    plan: &Plan,
    last: u16,
    stage: u16,
) -> Result<NumberList, NoMemory>
    requires { length plan.now.negations ≤ 64 }
    ensures { IfOk result (λ made. made ≡ spec.negations_between plan.now last stage) }
{
    let mut between = NumberList::new(alloc);
    for place in 0..plan.negations.len() {
        let number = place as u16;
        if stands_between(plan, last, stage, number) {
            between.push(number)?;
        }
    }
    Ok(between)
}

/// The same where there may be no last stage.
fn negations_behind(
    alloc: Global,
    plan: &Plan,
    last: Option<u16>,
    stage: u16,
) -> Result<NumberList, NoMemory>
    requires { length plan.now.negations ≤ 64 }
    ensures { IfOk result (λ made. made ≡ spec.negations_behind plan.now last stage) }
{
    match last {
        None => Ok(NumberList::new(alloc)),
        Some(last) => negations_between(alloc, plan, last, stage),
    }
}

/// The wait for a stage, where this many states stand before those of the stage.
#[tactic(auto, using(crate::proofs::NumberLaws::states_within), unfolding(crate::specs::Automaton::wait_for))]
fn wait_for(
    alloc: Global,
    plan: &Plan,
    reached: Option<State>,
    stage: u16,
    before: u32,
) -> Result<Wait, NoMemory>
    requires inside { stage < length plan.now.stages }
    requires before { before ≡ states_before plan.now stage }
    requires states { sum_by greatest_count plan.now.stages ≤ 1024 }
    requires negations { length plan.now.negations ≤ 64 }
    requires reached { IfSome reached (λ s. 1 ≤ s.count) }
    ensures { IfOk result (λ made. made ≡ spec.wait_for plan.now (stages_behind reached) stage) }
{
    let last = last_stage(reached);
    let count = count_behind(plan, reached, stage);
    let negations = negations_behind(alloc, plan, last, stage)?;
    Ok(Wait {
        state: (before + count) as u16,
        stage,
        count,
        mode: mode_behind(plan, last, stage),
        same_chain: is_same_chain(plan, last, stage),
        negations,
    })
}

/// Adds the wait for the stage, where it may come.
fn add_wait(
    alloc: Global,
    plan: &Plan,
    waits: &mut WaitList,
    reached: Option<State>,
    stage: u16,
    passable: bool,
    before: u32,
) -> Result<(), NoMemory>
    requires inside { stage < length plan.now.stages }
    requires states { sum_by greatest_count plan.now.stages ≤ 1024 }
    requires negations { length plan.now.negations ≤ 64 }
    requires reached { IfSome reached (λ s. 1 ≤ s.count) }
    requires passable { passable ≡ all_optional plan.now (first_behind reached) stage }
    requires before { before ≡ states_before plan.now stage }
    ensures { OnOk result (waits.new ≡ waits.old
        ++ map (spec.wait_for plan.now (stages_behind reached)) (filter (may_follow plan.now (stages_behind reached)) (stage ∷ []))) }
{
    if may_come(plan, reached, stage, passable) {
        waits.push(wait_for(alloc, plan, reached, stage, before)?)?;
    }
    Ok(())
}

/// The wait for the end.
#[tactic(auto, using(crate::proofs::EndLaws::wait_at_end))]
fn end_wait(alloc: Global, plan: &Plan, reached: Option<State>) -> Result<Wait, NoMemory>
    requires stages { length plan.now.stages ≤ 64 }
    requires negations { length plan.now.negations ≤ 64 }
    requires reached { IfSome reached (λ s. 1 ≤ s.count) }
    ensures { IfOk result (λ made. made ≡ spec.wait_for plan.now (stages_behind reached) (end_stage plan.now)) }
{
    let stage = plan.stages.len() as u16;
    let negations = negations_behind(alloc, plan, last_stage(reached), stage)?;
    Ok(Wait {
        state: 0,
        stage,
        count: 0,
        mode: Contiguity::Any,
        same_chain: false,
        negations,
    })
}

/// Adds the wait for the end, where it may come.
fn add_end(
    alloc: Global,
    plan: &Plan,
    waits: &mut WaitList,
    reached: Option<State>,
) -> Result<(), NoMemory>
    requires stages { length plan.now.stages ≤ 64 }
    requires negations { length plan.now.negations ≤ 64 }
    requires reached { IfSome reached (λ s. 1 ≤ s.count) }
    ensures { OnOk result (waits.new ≡ waits.old
        ++ map (spec.wait_for plan.now (stages_behind reached)) (filter (may_follow plan.now (stages_behind reached)) (end_stage plan.now ∷ []))) }
{
    if may_end(plan, reached) {
        waits.push(end_wait(alloc, plan, reached)?)?;
    }
    Ok(())
}

/// What is waited for behind a state, or before the first event, in order of stage, and then the end.
#[tactic(auto, using(crate::proofs::RangeLaws::filter_range_end), unfolding(crate::specs::Automaton::waits_of))]
pub fn waits_of(alloc: Global, plan: &Plan, reached: Option<State>) -> Result<WaitList, NoMemory>
    requires stages { length plan.now.stages ≤ 64 }
    requires states { sum_by greatest_count plan.now.stages ≤ 1024 }
    requires negations { length plan.now.negations ≤ 64 }
    requires reached { IfSome reached (λ s. 1 ≤ s.count) }
    ensures { IfOk result (λ made. made ≡ spec.waits_of plan.now (stages_behind reached)) }
{
    let from = first_behind(reached);
    let mut waits = WaitList::new(alloc);
    let mut passable = true;
    let mut before = 0;
    for place in 0..plan.stages.len() {
        let stage = place as u16;
        add_wait(alloc, plan, &mut waits, reached, stage, passable, before)?;
        passable = stays_open(plan, from, stage, passable);
        before = states_before_next(plan, stage, before);
    }
    add_end(alloc, plan, &mut waits, reached)?;
    Ok(waits)
}

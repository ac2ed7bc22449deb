//! What the conditions of a plan ask.
ghost use Rattle.std.specs.Prelude.{◌≡◌, ◌<◌, ◌^◌, ◌↔◌, ℕ, ◌++◌, map, length, IfOk, OnOk};
ghost use Rattle.std.specs.List.{flat_map, range_with_len, Contains};
ghost use Rattle.std.specs.List.Sorted.{IsStrictlySortedBy};
ghost use Rattle.std.specs.Ordering.{nat_cmp};
ghost use Rattle.cond_eval.specs.Asked.{questions_in};
ghost use Rattle.cond_sums.specs.Questions.{Wanted, conditions_of, questions_asked, asking_of, pair_in, stage_in, pair_cmp, IsWantedBy};

use crate::gather::{Asking, gather_condition, gather_stage};
use cep_event::NoMemory;
use cep_plan::{Negation, Plan, Stage};
use std::alloc::Global;
use std::marker::Model;

/// The pairs of a stage and a field of which the conditions of a plan ask aggregates, and the stages whose events are counted, which are all: each in rising order
/// and once.
#[derive(Drop)]
pub struct Asked {
    pairs: Vec<(u16, u16)>,
    counted: Vec<u16>,
}

impl Model for Asked {
    ghost use Rattle.cond_sums.specs.Questions.{Wanted};

    ghost Value = { Wanted };

    ghost view = { λ a. record { pairs = a.pairs.items; counted = a.counted.items } };
}

fn gather_stages(stages: &[Stage], found: &mut Vec<Asking>) -> Result<(), NoMemory>
    ensures { OnOk result (found.new.items ≡ found.old.items ++ map asking_of (flat_map (λ stage. flat_map questions_in (conditions_of stage)) stages.now)) }
{
    for stage in stages {
        gather_stage(stage, found)?;
    }
    Ok(())
}

fn gather_negations(negations: &[Negation], found: &mut Vec<Asking>) -> Result<(), NoMemory>
    ensures { OnOk result (found.new.items ≡ found.old.items ++ map asking_of (flat_map (λ negation. questions_in negation.cond) negations.now)) }
{
    for negation in negations {
        gather_condition(&negation.cond, found)?;
    }
    Ok(())
}

fn gathered(alloc: Global, plan: &Plan) -> Result<Vec<Asking>, NoMemory>
    ensures { IfOk result (λ found. found.items ≡ map asking_of (questions_asked plan.now)) }
{
    let mut found = Vec::new(alloc);
    gather_stages(plan.stages.as_slice(), &mut found)?;
    gather_negations(plan.negations.as_slice(), &mut found)?;
    Ok(found)
}

fn add_pair(asking: Asking, pairs: &mut Vec<(u16, u16)>) -> Result<(), NoMemory>
    ensures { OnOk result (pairs.new.items ≡ pairs.old.items ++ pair_in asking) }
{
    match asking {
        Asking::Of(stage, field) => {
            pairs.push((stage, field))?;
            Ok(())
        }
        Asking::Count(_) => Ok(()),
    }
}

fn pairs_among(alloc: Global, found: &[Asking]) -> Result<Vec<(u16, u16)>, NoMemory>
    ensures { IfOk result (λ pairs. pairs.items ≡ flat_map pair_in found.now) }
{
    let mut pairs = Vec::new(alloc);
    for asking in found {
        add_pair(*asking, &mut pairs)?;
    }
    Ok(pairs)
}

fn add_stage(asking: Asking, stages: &mut Vec<u16>) -> Result<(), NoMemory>
    ensures { OnOk result (stages.new.items ≡ stages.old.items ++ stage_in asking) }
{
    match asking {
        Asking::Count(stage) => {
            stages.push(stage)?;
            Ok(())
        }
        Asking::Of(_, _) => Ok(()),
    }
}

fn stages_among(alloc: Global, found: &[Asking]) -> Result<Vec<u16>, NoMemory>
    ensures { IfOk result (λ stages. stages.items ≡ flat_map stage_in found.now) }
{
    let mut stages = Vec::new(alloc);
    for asking in found {
        add_stage(*asking, &mut stages)?;
    }
    Ok(stages)
}

fn add_each_stage(stages: &[Stage], counted: &mut Vec<u16>) -> Result<(), NoMemory>
    requires { length stages.now < 2 ^ 16 }
    ensures { OnOk result (counted.new.items ≡ counted.old.items ++ range_with_len 0 (length stages.now)) }
{
    for stage in 0..stages.len() as u16 {
        counted.push(stage)?;
    }
    Ok(())
}

fn put_in_order(pairs: &mut Vec<(u16, u16)>)
    ensures rising { IsStrictlySortedBy pair_cmp pairs.new.items }
    ensures same { (p : ℕ × ℕ) → Contains pairs.new.items p ↔ Contains pairs.old.items p }
{
    pairs.sort_unstable();
    pairs.dedup();
}

fn put_stages_in_order(stages: &mut Vec<u16>)
    ensures rising { IsStrictlySortedBy nat_cmp stages.new.items }
    ensures same { (n : ℕ) → Contains stages.new.items n ↔ Contains stages.old.items n }
{
    stages.sort_unstable();
    stages.dedup();
}

impl Asked {
    /// What the plan's conditions ask, those of its stages, each `until`, and those of its negations, and the count of every stage.
    pub fn of(alloc: Global, plan: &Plan) -> Result<Asked, NoMemory>
        requires { length plan.now.stages < 2 ^ 16 }
        ensures { IfOk result (λ asked. IsWantedBy plan.now asked) }
    {
        let found = gathered(alloc, plan)?;
        let mut pairs = pairs_among(alloc, found.as_slice())?;
        let mut counted = stages_among(alloc, found.as_slice())?;
        add_each_stage(plan.stages.as_slice(), &mut counted)?;
        put_in_order(&mut pairs);
        put_stages_in_order(&mut counted);
        Ok(Asked { pairs, counted })
    }

    /// The pairs of a stage and a field.
    pub fn pairs(&self) -> &[(u16, u16)]
        ensures { result.now ≡ self.now.pairs }
    {
        self.pairs.as_slice()
    }

    /// The stages whose events are counted.
    pub fn counted(&self) -> &[u16]
        ensures { result.now ≡ self.now.counted }
    {
        self.counted.as_slice()
    }
}

//! Stages and negations of a plan.

ghost use Rattle.std.specs.Prelude.{◌≡◌, ◌≤◌, ◌++◌, ◌∷◌, [], if◌then◌else◌, length, IfOk, OnOk};
ghost use Rattle.std.specs.Option.{option_map};
ghost use Rattle.pattern_check.specs.Numbers as numbers;
ghost use Rattle.pattern_rules.specs.Bounds as bounds;
ghost use Rattle.pattern_check.specs.Plan as spec;

use crate::condition::{cond_of, until_of};
use crate::number::{is_positive, of_number, stages_before, times};
use cep_event::NoMemory;
use cep_plan::{Contiguity, Negation, NegationList, Stage, StageList};
use cep_syntax::{File, Modifier, OpenKind, Opener};
use pattern_rules::{KnownFields, Role, bounds_of, has, is_negated};
use std::alloc::Global;

fn first_of(how: OpenKind) -> Contiguity
    ensures { result ≡ spec.first_of how }
{
    match how {
        OpenKind::Next => Contiguity::Strict,
        OpenKind::FollowedBy => Contiguity::Relaxed,
        _ => Contiguity::Any,
    }
}

fn inner_of(mods: &[Modifier]) -> Contiguity
    ensures { result ≡ spec.inner_of mods.now }
{
    if has(Role::Consecutive, mods) {
        Contiguity::Strict
    } else if has(Role::Combining, mods) {
        Contiguity::Any
    } else {
        Contiguity::Relaxed
    }
}

fn greatest_of(greatest: Option<u64>) -> Option<u32>
    ensures { result ≡ option_map numbers.times greatest }
{
    match greatest {
        None => None,
        Some(greatest) => Some(times(greatest)),
    }
}

#[tactic(auto, unfolding(crate::specs::Plan::stage_of))]
fn stage_of(
    alloc: Global,
    fields: &KnownFields,
    file: &File,
    opener: &Opener,
) -> Result<Stage, NoMemory>
    requires few { length file.now.openers ≤ 64 }
    requires few_types { length file.now.types ≤ 65535 }
    ensures { IfOk result (λ made. made ≡ spec.stage_of fields.now file.now opener.now) }
{
    let openers = file.openers.as_slice();
    let mods = opener.mods.as_slice();
    let name = opener.name.text.copy()?;
    let cond = cond_of(alloc, fields, openers, mods)?;
    let until = until_of(alloc, fields, openers, mods)?;
    let (least, greatest) = bounds_of(mods);
    Ok(Stage {
        name,
        of: of_number(file.types.as_slice(), &opener.of),
        cond,
        until,
        first: first_of(opener.how),
        inner: inner_of(mods),
        min: times(least),
        max: greatest_of(greatest),
        optional: has(Role::Optional, mods),
    })
}

fn is_not_next(how: OpenKind) -> bool
    ensures { result ≡ spec.is_not_next how }
{
    matches!(how, OpenKind::NotNext)
}

#[tactic(auto, unfolding(crate::specs::Plan::negation_of))]
fn negation_of(
    alloc: Global,
    fields: &KnownFields,
    file: &File,
    opener: &Opener,
) -> Result<Negation, NoMemory>
    requires few { length file.now.openers ≤ 64 }
    requires few_types { length file.now.types ≤ 65535 }
    ensures { IfOk result (λ made. made ≡ spec.negation_of fields.now file.now opener.now) }
{
    let openers = file.openers.as_slice();
    let name = opener.name.text.copy()?;
    let cond = cond_of(alloc, fields, openers, opener.mods.as_slice())?;
    Ok(Negation {
        name,
        after: stages_before(openers, &opener.name.text).saturating_sub(1),
        next_only: is_not_next(opener.how),
        of: of_number(file.types.as_slice(), &opener.of),
        cond,
    })
}

/// Adds the stage of the opener, if it is positive.
fn add_stage(
    alloc: Global,
    fields: &KnownFields,
    file: &File,
    stages: &mut StageList,
    opener: &Opener,
) -> Result<(), NoMemory>
    requires few { length file.now.openers ≤ 64 }
    requires few_types { length file.now.types ≤ 65535 }
    ensures { OnOk result (stages.new
        ≡ (if numbers.is_positive opener.now then stages.old ++ spec.stage_of fields.now file.now opener.now ∷ [] else stages.old)) }
{
    if is_positive(opener) {
        let stage = stage_of(alloc, fields, file, opener)?;
        stages.push(stage)?;
    }
    Ok(())
}

/// The positive stages in the order of the pattern.
#[tactic(auto, unfolding(crate::specs::Plan::stages_of))]
pub fn stages_of(alloc: Global, fields: &KnownFields, file: &File) -> Result<StageList, NoMemory>
    requires few { length file.now.openers ≤ 64 }
    requires few_types { length file.now.types ≤ 65535 }
    ensures { IfOk result (λ made. made ≡ spec.stages_of fields.now file.now) }
{
    let mut stages = StageList::new(alloc);
    let openers = file.openers.as_slice();
    for opener in openers {
        add_stage(alloc, fields, file, &mut stages, opener)?;
    }
    Ok(stages)
}

/// Adds the negation of the opener, if it is negated.
fn add_negation(
    alloc: Global,
    fields: &KnownFields,
    file: &File,
    negations: &mut NegationList,
    opener: &Opener,
) -> Result<(), NoMemory>
    requires few { length file.now.openers ≤ 64 }
    requires few_types { length file.now.types ≤ 65535 }
    ensures { OnOk result (negations.new
        ≡ (if bounds.is_negated opener.now.how then negations.old ++ spec.negation_of fields.now file.now opener.now ∷ [] else negations.old)) }
{
    if is_negated(opener.how) {
        let negation = negation_of(alloc, fields, file, opener)?;
        negations.push(negation)?;
    }
    Ok(())
}

/// The negations in the order of the pattern.
#[tactic(auto, unfolding(crate::specs::Plan::negations_of))]
pub fn negations_of(
    alloc: Global,
    fields: &KnownFields,
    file: &File,
) -> Result<NegationList, NoMemory>
    requires few { length file.now.openers ≤ 64 }
    requires few_types { length file.now.types ≤ 65535 }
    ensures { IfOk result (λ made. made ≡ spec.negations_of fields.now file.now) }
{
    let mut negations = NegationList::new(alloc);
    let openers = file.openers.as_slice();
    for opener in openers {
        add_negation(alloc, fields, file, &mut negations, opener)?;
    }
    Ok(negations)
}

//! Events that change no list which waits for a stage and which they are no candidate of, as the event alone tells.
ghost use Rattle.std.specs.Prelude.{◌≡◌, ◌&&◌, ℕ, true, false, IsTrue, List};
ghost use Rattle.cep_plan.specs.declared.item.Taken.{Taken};
ghost use Rattle.cep_plan.specs.Candidate.{ends_loop, satisfies, is_between, breaks_next, breaks_followed};
ghost use Rattle.cep_plan.specs.Gap.{contiguity_of, contiguity_allows};
ghost use Rattle.run_judge.specs.Offer.{LetsOthersBe};

use crate::candidate::is_of;
use crate::gap::may_pass;
use cep_event::Event;
use cep_plan::{Negation, Plan};
use cond_ready::never_met;

/// Whether the event doesn't end the loop of the stage, whatever was taken before.
pub fn never_ends(plan: &Plan, stage: u16, event: &Event) -> bool
    ensures { IsTrue result → (list : List Taken) → ends_loop plan.now list stage event.now ≡ false }
{
    match plan.stages.get(stage as usize) {
        None => true,
        Some(declared) => match &declared.until {
            None => true,
            Some(cond) => never_met(plan, cond, event),
        },
    }
}

/// Whether an event that is no candidate may stand in each gap before the stage.
pub fn lets_others_pass(plan: &Plan, stage: u16) -> bool
    ensures { IsTrue result → (before : ℕ) → contiguity_allows (contiguity_of plan.now before stage) false ≡ true }
{
    match plan.stages.get(stage as usize) {
        None => true,
        Some(declared) => may_pass(declared.first, false) && may_pass(declared.inner, false),
    }
}

/// Whether the event doesn't satisfy the negation, whatever was taken before.
#[tactic(auto, unfolding(cep_plan::specs::Candidate::satisfies))]
pub fn is_never_satisfied(plan: &Plan, negation: &Negation, event: &Event) -> bool
    ensures { IsTrue result → (list : List Taken) → satisfies plan.now list negation.now event.now ≡ false }
{
    !is_of(negation.of, event) || never_met(plan, &negation.cond, event)
}

/// Whether the negation stands before no step into the stage, or the event doesn't satisfy it, whatever was taken before.
pub fn is_no_bar(plan: &Plan, stage: u16, negation: &Negation, event: &Event) -> bool
    ensures { IsTrue result → (list : List Taken) (before : ℕ)
        → (is_between before stage negation.now && satisfies plan.now list negation.now event.now) ≡ false }
{
    stage <= negation.after || is_never_satisfied(plan, negation, event)
}

/// Whether the event satisfies no negation that may stand before the stage, whatever was taken before.
pub fn has_no_bar(plan: &Plan, stage: u16, event: &Event) -> bool
    ensures next { IsTrue result → (list : List Taken) (before : ℕ) → breaks_next plan.now list before stage event.now ≡ false }
    ensures followed { IsTrue result → (list : List Taken) (before : ℕ) → breaks_followed plan.now list before stage event.now ≡ false }
{
    for negation in plan.negations.as_slice() {
        if !is_no_bar(plan, stage, negation, event) {
            return false;
        }
    }
    true
}

/// Whether a list that waits for the stage goes on waiting at the event where that is no candidate. It looks at no list, and where it answers false
/// that may still be so.
pub fn lets_others_be(plan: &Plan, stage: u16, event: &Event) -> bool
    ensures { IsTrue result → LetsOthersBe plan.now stage event.now }
{
    if !lets_others_pass(plan, stage) {
        return false;
    }
    if !never_ends(plan, stage, event) {
        return false;
    }
    has_no_bar(plan, stage, event)
}

//! A stage at an event, ready to be asked of one list that waits for it after the other.
ghost use Rattle.std.specs.Prelude.{◌≡◌, ◌&&◌, ℕ, true, false, IsTrue, List};
ghost use Rattle.std.specs.List.{Contains};
ghost use Rattle.std.specs.Option.{option_map_or};
ghost use Rattle.cep_plan.specs.declared.item.Taken.{Taken};
ghost use Rattle.cep_plan.specs.Condition.{condition_holds};
ghost use Rattle.cep_plan.specs.Candidate.{has_type, is_candidate};
ghost use Rattle.live_laws.specs.Survival.{survives, takes};
ghost use Rattle.cond_sums.specs.Questions.{IsWantedBy};
ghost use Rattle.cond_sums.specs.Kept.{wanted_in, StandsFor};
ghost use Rattle.run_judge.specs.Fate.{IsKeptOf};
ghost use Rattle.run_judge.specs.Offer.{met_at, IsOfPlan};

use crate::candidate::is_of;
use crate::gap::{Fate, Last, judged_where};
use crate::untouched::lets_others_be;
use cep_event::Event;
use cep_plan::{Plan, Stage};
use cond_ready::{AtEvent, at_event};
use cond_sums::Sums;
use std::marker::Model;

/// The conditions of a stage at an event. What the event alone tells of them is found.
#[derive(Drop)]
pub struct StageAt<'a> {
    plan: &'a Plan,
    stage: u16,
    event: &'a Event,
    /// None where the event has another type.
    cond: Option<AtEvent<'a>>,
    until: Option<AtEvent<'a>>,
    /// Lists for which the event is no candidate go on waiting, as far as the event alone tells.
    lets_be: bool,
}

impl<'a> Model for StageAt<'a> {
    ghost use Rattle.std.specs.Prelude.{◌≡◌, List, IsTrue};
    ghost use Rattle.std.specs.Coded.{codes};
    ghost use Rattle.cep_plan.specs.contracts.condition.Expr as expr;
    ghost use Rattle.cep_plan.specs.declared.item.Taken.{Taken};
    ghost use Rattle.cep_plan.specs.Candidate.{is_candidate};
    ghost use Rattle.run_judge.specs.Offer.{Offer, wants, IsOfPlan, LetsOthersBe};

    ghost Value = { Offer };

    ghost coded = { Prim.hlevel (codes, expr.the_row.coded) };

    ghost view = { λ s. record { plan = s.plan.now; stage = s.stage; event = s.event.now } };

    ghost invariant = { λ s. record {
      cond : IsOfPlan s.plan.now s.cond;
      until : IsOfPlan s.plan.now s.until;
      same : (list : List Taken) → wants s.cond s.until list ≡ is_candidate s.plan.now list s.stage s.event.now;
      be : IsTrue s.lets_be → LetsOthersBe s.plan.now s.stage s.event.now;
    } };
}

fn cond_at<'a>(plan: &'a Plan, declared: &'a Stage, event: &'a Event) -> Option<AtEvent<'a>>
    requires { Contains plan.now.stages declared.now }
    ensures of { IsOfPlan plan.now result }
    ensures met { (list : List Taken) → option_map_or (met_at list) result false
        ≡ (has_type declared.now.of event.now && condition_holds plan.now.types event.now list declared.now.cond) }
{
    if is_of(declared.of, event) {
        Some(at_event(plan, &declared.cond, event))
    } else {
        None
    }
}

fn until_at<'a>(plan: &'a Plan, declared: &'a Stage, event: &'a Event) -> Option<AtEvent<'a>>
    requires { Contains plan.now.stages declared.now }
    ensures of { IsOfPlan plan.now result }
    ensures met { (list : List Taken) → option_map_or (met_at list) result false
        ≡ option_map_or (condition_holds plan.now.types event.now list) declared.now.until false }
{
    match &declared.until {
        None => None,
        Some(until) => Some(at_event(plan, until, event)),
    }
}

/// Finds what the event alone tells of the stage, once for all lists. It takes no memory.
#[tactic(auto, unfolding(cep_plan::specs::Candidate::is_candidate))]
pub fn stage_at<'a>(plan: &'a Plan, stage: u16, event: &'a Event) -> StageAt<'a>
    ensures { result ≡ record { plan = plan.now; stage = stage; event = event.now } }
{
    let lets_be = lets_others_be(plan, stage, event);
    match plan.stages.get(stage as usize) {
        None => StageAt {
            plan,
            stage,
            event,
            cond: None,
            until: None,
            lets_be,
        },
        Some(declared) => {
            let cond = cond_at(plan, declared, event);
            let until = until_at(plan, declared, event);
            StageAt {
                plan,
                stage,
                event,
                cond,
                until,
                lets_be,
            }
        }
    }
}

fn is_met_at(plan: &Plan, at: &Option<AtEvent<'_>>, sums: &Sums) -> bool
    requires of { IsOfPlan plan.now at.now }
    requires asked { IsWantedBy plan.now (wanted_in sums.now) }
    ensures { (list : List Taken) → StandsFor sums.now plan.now.types list → result ≡ option_map_or (met_at list) at.now false }
{
    match at {
        None => false,
        Some(at) => at.holds_with(sums),
    }
}

fn is_never_met_at(at: &Option<AtEvent<'_>>) -> bool
    ensures { IsTrue result → (list : List Taken) → option_map_or (met_at list) at.now false ≡ false }
{
    match at {
        None => true,
        Some(at) => at.is_never_met(),
    }
}

impl StageAt<'_> {
    /// Whether the event is a candidate for the stage.
    fn is_wanted(&self, sums: &Sums) -> bool
        requires { IsWantedBy self.now.plan (wanted_in sums.now) }
        ensures { (list : List Taken) → StandsFor sums.now self.now.plan.types list → result ≡ is_candidate self.now.plan list self.now.stage self.now.event }
    {
        is_met_at(self.plan, &self.cond, sums) && !is_met_at(self.plan, &self.until, sums)
    }

    /// Whether the event is no candidate for the stage, whatever was taken before.
    fn is_never_wanted(&self) -> bool
        ensures { IsTrue result → (list : List Taken) → is_candidate self.now.plan list self.now.stage self.now.event ≡ false }
    {
        is_never_met_at(&self.cond)
    }

    /// Whether the event changes no list that waits for the stage: it isn't taken, and the list goes on waiting. It looks at no list, and where it
    /// answers false that may still be so.
    pub fn is_untouched(&self) -> bool
        ensures taken { IsTrue result → (list : List Taken) (position : ℕ)
            → takes self.now.plan list self.now.stage self.now.event position ≡ false }
        ensures lives { IsTrue result → (list : List Taken) (position : ℕ)
            → survives self.now.plan list self.now.stage self.now.event position ≡ true }
    {
        self.is_never_wanted() && self.lets_be
    }

    /// What the event does to a list that waits for the stage, by what is kept of the list. Where it is no candidate and lets such lists be, nothing else
    /// is asked.
    pub fn judged(&self, sums: &Sums, last: Option<Last>, start_ts: i64, position: u32) -> Fate
        requires { IsWantedBy self.now.plan (wanted_in sums.now) }
        ensures taken { (list : List Taken) → IsKeptOf self.now.plan self.now.event list sums.now last start_ts
            → result.taken ≡ takes self.now.plan list self.now.stage self.now.event position }
        ensures lives { (list : List Taken) → IsKeptOf self.now.plan self.now.event list sums.now last start_ts
            → result.lives ≡ survives self.now.plan list self.now.stage self.now.event position }
    {
        let candidate = self.is_wanted(sums);
        if self.lets_be && !candidate {
            return Fate {
                taken: false,
                lives: true,
            };
        }
        judged_where(
            self.plan, sums, last, start_ts, self.stage, self.event, position, candidate,
        )
    }
}

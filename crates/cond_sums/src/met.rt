//! Conditions, asked of kept sums.
ghost use Rattle.std.specs.Prelude.{◌≡◌, List};
ghost use Rattle.std.specs.List.{Contains};
ghost use Rattle.cep_plan.specs.declared.item.Taken.{Taken};
ghost use Rattle.cep_plan.specs.Condition.{condition_holds};
ghost use Rattle.cond_sums.specs.Questions.{conditions_in, IsWantedBy};
ghost use Rattle.cond_sums.specs.Kept.{wanted_in, StandsFor};

use crate::sums::Sums;
use cep_event::Event;
use cep_plan::{Cond, Plan};
use cond_eval::holds;

/// Whether one of the plan's conditions holds at the event. The sums keep what the plan's conditions ask.
pub fn is_met(plan: &Plan, cond: &Cond, event: &Event, sums: &Sums) -> bool
    requires plan { Contains (conditions_in plan.now) cond.now }
    requires asked { IsWantedBy plan.now (wanted_in sums.now) }
    ensures { (list : List Taken) → StandsFor sums.now plan.now.types list → result ≡ condition_holds plan.now.types event.now list cond.now }
{
    holds(plan, cond, event, sums)
}

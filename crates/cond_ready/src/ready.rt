//! A condition at an event, ready to be asked of one list of taken events after the other.
ghost use Rattle.std.specs.Prelude.{◌≡◌, true, false, List, IsTrue};
ghost use Rattle.std.specs.List.{All};
ghost use Rattle.cep_plan.specs.declared.item.Taken.{Taken};
ghost use Rattle.cep_plan.specs.Condition.{condition_holds};
ghost use Rattle.cond_eval.specs.Asked.{questions_in};
ghost use Rattle.cond_ready.specs.Rest.{AreLeftOf};

use crate::asked::are_all_true;
use crate::never::never_met;
use crate::rests::{Rests, are_refuted, are_settled, rests_of};
use cep_event::Event;
use cep_plan::{Cond, Matched, Plan};
use cond_eval::holds;
use std::marker::Model;

/// A condition at an event. What the event alone tells is found, and at most three things are left to ask of the events taken before.
/// Where more would be left, the whole condition is asked.
#[derive(Debug, Drop)]
pub struct AtEvent<'a> {
    plan: &'a Plan,
    cond: &'a Cond,
    event: &'a Event,
    rests: Option<Rests<'a>>,
}

impl<'a> Model for AtEvent<'a> {
    ghost use Rattle.std.specs.Coded.{codes};
    ghost use Rattle.cep_plan.specs.contracts.condition.Expr as expr;
    ghost use Rattle.cond_ready.specs.Rest.{Ready, AreLeftOf};

    ghost Value = { Ready };

    ghost coded = { Prim.hlevel (codes, expr.the_row.coded) };

    ghost view = { λ a. record { types = a.plan.now.types; event = a.event.now; cond = a.cond.now } };

    ghost invariant = { λ a. AreLeftOf (record { types = a.plan.now.types; event = a.event.now; cond = a.cond.now }) a.rests };
}

/// Finds what the event alone tells of the condition, once for all lists of taken events. It takes no memory.
pub fn at_event<'a>(plan: &'a Plan, cond: &'a Cond, event: &'a Event) -> AtEvent<'a>
    ensures { result ≡ record { types = plan.now.types; event = event.now; cond = cond.now } }
{
    let rests = rests_of(plan, cond, event);
    AtEvent {
        plan,
        cond,
        event,
        rests,
    }
}

impl<'a> AtEvent<'a> {
    fn plan(&self) -> &Plan
        ensures { result.now.types ≡ self.now.types }
    {
        self.plan
    }

    fn cond(&self) -> &Cond
        ensures { result.now ≡ self.now.cond }
    {
        self.cond
    }

    fn event(&self) -> &Event
        ensures { result.now ≡ self.now.event }
    {
        self.event
    }

    fn rests(&self) -> &Option<Rests<'a>>
        ensures { AreLeftOf self.now result.now }
    {
        &self.rests
    }

    /// Whether the condition holds at the event, with the taken events.
    #[inline]
    pub fn holds_with<M: Matched>(&self, taken: &M) -> bool
        requires { All (M.can_answer taken.now) (questions_in self.now.cond) }
        ensures { (list : List Taken) → M.stands_for taken.now self.now.types list
            → result ≡ condition_holds self.now.types self.now.event list self.now.cond }
    {
        match self.rests() {
            None => holds(self.plan(), self.cond(), self.event(), taken),
            Some(rests) => are_all_true(self.plan(), rests, self.event(), taken),
        }
    }

    /// Whether the event alone tells that the condition doesn't hold, whatever was taken before.
    pub fn is_never_met(&self) -> bool
        ensures { IsTrue result → (list : List Taken) → condition_holds self.now.types self.now.event list self.now.cond ≡ false }
    {
        match self.rests() {
            None => never_met(self.plan(), self.cond(), self.event()),
            Some(rests) => are_refuted(rests),
        }
    }

    /// Whether the event alone tells that the condition holds, whatever was taken before. It looks no further than what is ready.
    pub fn is_always_met(&self) -> bool
        ensures { IsTrue result → (list : List Taken) → condition_holds self.now.types self.now.event list self.now.cond ≡ true }
    {
        match self.rests() {
            None => false,
            Some(rests) => are_settled(rests),
        }
    }
}

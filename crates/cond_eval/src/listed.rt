ghost use Rattle.std.specs.Prelude.{◌≡◌, ◌<◌, ◌^◌, length};
ghost use Rattle.cond_eval.specs.Listed.{Listed, IsListed};

use crate::aggregate::{count_for, first_for, greatest_for, last_for, least_for, sum_for};
use cep_event::EventType;
use cep_plan::{Matched, Plan, Taken, TakenList, Val};
use std::marker::Model;

/// The events taken so far, as a plain list. It answers every question, in a time that grows with the list.
#[derive(Debug, Drop)]
pub struct ListMatched<'a> {
    types: &'a [EventType],
    list: &'a [Taken],
}

impl<'a> Model for ListMatched<'a> {
    ghost Value = { Listed };

    ghost view = { λ m. record { types = m.types.now; list = m.list.now } };

    ghost invariant = { λ m. length m.list.now < 2 ^ 32 };
}

impl<'a> ListMatched<'a> {
    /// The plan's types tell where a field stands in an event.
    pub fn new(plan: &'a Plan, taken: &'a TakenList) -> ListMatched<'a>
        requires { length taken.now < 2 ^ 32 }
        ensures { result ≡ record { types = plan.now.types; list = taken.now } }
    {
        ListMatched {
            types: plan.types.as_slice(),
            list: taken.as_slice(),
        }
    }

    fn types(&self) -> &[EventType]
        ensures { result.now ≡ self.now.types }
    {
        self.types
    }

    fn list(&self) -> &[Taken]
        ensures same { result.now ≡ self.now.list }
        ensures short { length result.now < 2 ^ 32 }
    {
        self.list
    }
}

impl Matched for ListMatched<'_> {
    ghost can_answer = { λ _ _. Unit {0} };

    ghost stands_for = { IsListed };

    fn count(&self, stage: u16) -> u32 {
        count_for(self.list(), stage)
    }

    fn sum(&self, stage: u16, field: u16) -> Val<'_> {
        sum_for(self.types(), self.list(), stage, field)
    }

    fn min(&self, stage: u16, field: u16) -> Val<'_> {
        least_for(self.types(), self.list(), stage, field)
    }

    fn max(&self, stage: u16, field: u16) -> Val<'_> {
        greatest_for(self.types(), self.list(), stage, field)
    }

    fn first(&self, stage: u16, field: u16) -> Val<'_> {
        first_for(self.types(), self.list(), stage, field)
    }

    fn last(&self, stage: u16, field: u16) -> Val<'_> {
        last_for(self.types(), self.list(), stage, field)
    }
}

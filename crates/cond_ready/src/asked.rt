//! What is left of a condition, asked of the taken events.
ghost use Rattle.std.specs.Prelude.{◌≡◌, List};
ghost use Rattle.std.specs.List.{All};
ghost use Rattle.cep_plan.specs.declared.item.Taken.{Taken};
ghost use Rattle.cond_ready.specs.Rest.{rest_holds, rest_questions, rests_hold};

use crate::alone::is_true;
use crate::compare::compared;
use crate::rest::Rest;
use crate::rests::Rests;
use cep_event::Event;
use cep_plan::{Matched, Plan};
use cond_eval::value;

fn is_rest_true<M: Matched>(plan: &Plan, rest: &Rest<'_>, event: &Event, taken: &M) -> bool
    requires { All (M.can_answer taken.now) (rest_questions rest.now) }
    ensures { (list : List Taken) → M.stands_for taken.now plan.now.types list → result ≡ rest_holds plan.now.types event.now list rest.now }
{
    match rest {
        Rest::Known(truth) => *truth,
        Rest::ValueFirst(cmp, x, y) => compared(*cmp, *x, value(plan, y, Some(event), taken)),
        Rest::ValueLast(cmp, x, y) => compared(*cmp, value(plan, x, Some(event), taken), *y),
        Rest::Whole(x) => is_true(value(plan, x, Some(event), taken)),
    }
}

/// Whether all that is left holds.
pub fn are_all_true<M: Matched>(plan: &Plan, rests: &Rests<'_>, event: &Event, taken: &M) -> bool
    requires first { All (M.can_answer taken.now) (rest_questions rests.now.first) }
    requires second { All (M.can_answer taken.now) (rest_questions rests.now.second) }
    requires third { All (M.can_answer taken.now) (rest_questions rests.now.third) }
    ensures { (list : List Taken) → M.stands_for taken.now plan.now.types list → result ≡ rests_hold plan.now.types event.now list rests.now }
{
    is_rest_true(plan, &rests.first, event, taken)
        && is_rest_true(plan, &rests.second, event, taken)
        && is_rest_true(plan, &rests.third, event, taken)
}

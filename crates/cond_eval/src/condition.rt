ghost use Rattle.std.specs.Prelude.{◌≡◌, List, Some, fold};
ghost use Rattle.std.specs.List.{All, flat_map};
ghost use Rattle.cep_plan.specs.declared.item.Taken.{Taken};
ghost use Rattle.cep_plan.specs.Answer.{is_true};
ghost use Rattle.cep_plan.specs.Value.{value_of};
ghost use Rattle.cep_plan.specs.Condition.{joined, condition_holds};
ghost use Rattle.cond_eval.specs.Asked.{questions_of, questions_in};

use crate::answer::is_true;
use crate::evaluate::value;
use cep_event::Event;
use cep_plan::{Cond, Join, Matched, Part, Plan};

fn part_holds<M: Matched>(plan: &Plan, part: &Part, event: &Event, taken: &M) -> bool
    requires { All (M.can_answer taken.now) (questions_of part.now.expr) }
    ensures { (list : List Taken) → M.stands_for taken.now plan.now.types list
        → result ≡ is_true (value_of plan.now.types (Some event.now) list part.now.expr) }
{
    is_true(value(plan, &part.expr, Some(event), taken))
}

/// Looks at the part only where it can change the answer.
fn joined<M: Matched>(plan: &Plan, so_far: bool, part: &Part, event: &Event, taken: &M) -> bool
    requires { All (M.can_answer taken.now) (questions_of part.now.expr) }
    ensures { (list : List Taken) → M.stands_for taken.now plan.now.types list
        → result ≡ joined part.now.join so_far (is_true (value_of plan.now.types (Some event.now) list part.now.expr)) }
{
    match part.join {
        Join::Both => so_far && part_holds(plan, part, event, taken),
        Join::Either => so_far || part_holds(plan, part, event, taken),
    }
}

fn rest_joined<M: Matched>(
    plan: &Plan,
    first: bool,
    rest: &[Part],
    event: &Event,
    taken: &M,
) -> bool
    requires { All (M.can_answer taken.now) (flat_map (λ part. questions_of part.expr) rest.now) }
    ensures { (list : List Taken) → M.stands_for taken.now plan.now.types list
        → result ≡ fold (λ so_far next. joined next.join so_far (is_true (value_of plan.now.types (Some event.now) list next.expr))) first rest.now }
{
    let mut so_far = first;
    for part in rest {
        so_far = joined(plan, so_far, part, event, taken);
    }
    so_far
}

/// Whether the condition holds at the event. A part that cannot change the answer is not looked at.
pub fn holds<M: Matched>(plan: &Plan, cond: &Cond, event: &Event, taken: &M) -> bool
    requires { All (M.can_answer taken.now) (questions_in cond.now) }
    ensures { (list : List Taken) → M.stands_for taken.now plan.now.types list → result ≡ condition_holds plan.now.types event.now list cond.now }
{
    match cond.parts.as_slice() {
        [] => true,
        [first, rest @ ..] => {
            let first = part_holds(plan, first, event, taken);
            rest_joined(plan, first, rest, event, taken)
        }
    }
}

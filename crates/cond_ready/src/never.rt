//! What the event alone refutes, whatever events were taken before it.
ghost use Rattle.std.specs.Prelude.{◌≡◌, Bool, false, IsTrue, List, Some, fold};
ghost use Rattle.std.specs.List.{list_any, list_all};
ghost use Rattle.cep_plan.specs.declared.item.Taken.{Taken};
ghost use Rattle.cep_plan.specs.Answer.{is_true};
ghost use Rattle.cep_plan.specs.Value.{value_of};
ghost use Rattle.cep_plan.specs.Condition.{joined, condition_holds};

use crate::alone::{asks_nothing, is_true, value_alone};
use cep_event::Event;
use cep_plan::{Cond, Expr, Join, Part, Plan};

/// Whether the expression asks nothing of the taken events and isn't true at the event.
fn is_false_alone(plan: &Plan, expr: &Expr, event: &Event) -> bool
    ensures { IsTrue result → (list : List Taken) → is_true (value_of plan.now.types (Some event.now) list expr.now) ≡ false }
{
    if !asks_nothing(expr) {
        return false;
    }
    !is_true(value_alone(plan, expr, event))
}

#[cycle(never)]
fn one_never_holds(plan: &Plan, parts: &[Expr], event: &Event) -> bool
    ensures { IsTrue result → (list : List Taken) → list_all (λ x. is_true (value_of plan.now.types (Some event.now) list x)) parts.now ≡ false }
{
    for part in parts {
        if never_true(plan, part, event) {
            return true;
        }
    }
    false
}

#[cycle(never)]
fn none_ever_holds(plan: &Plan, parts: &[Expr], event: &Event) -> bool
    ensures { IsTrue result → (list : List Taken) → list_any (λ x. is_true (value_of plan.now.types (Some event.now) list x)) parts.now ≡ false }
{
    for part in parts {
        if !never_true(plan, part, event) {
            return false;
        }
    }
    true
}

/// Whether the event alone tells that the expression is not true at it, whatever was taken before.
#[cycle(never)]
pub fn never_true(plan: &Plan, expr: &Expr, event: &Event) -> bool
    ensures { IsTrue result → (list : List Taken) → is_true (value_of plan.now.types (Some event.now) list expr.now) ≡ false }
{
    match expr {
        Expr::All(parts) => one_never_holds(plan, parts.as_slice(), event),
        Expr::Any(parts) => none_ever_holds(plan, parts.as_slice(), event),
        _ => is_false_alone(plan, expr, event),
    }
}

/// Whether the event alone tells that the parts so far don't hold, with one more part.
fn never_joined(plan: &Plan, so_far: bool, part: &Part, event: &Event) -> bool
    ensures { IsTrue result → (list : List Taken) (held : Bool) → (IsTrue so_far → held ≡ false)
        → joined part.now.join held (is_true (value_of plan.now.types (Some event.now) list part.now.expr)) ≡ false }
{
    match part.join {
        Join::Both => so_far || never_true(plan, &part.expr, event),
        Join::Either => so_far && never_true(plan, &part.expr, event),
    }
}

fn rest_never_holds(plan: &Plan, first: bool, rest: &[Part], event: &Event) -> bool
    ensures { IsTrue result → (list : List Taken) (held : Bool) → (IsTrue first → held ≡ false)
        → fold (λ so_far next. joined next.join so_far (is_true (value_of plan.now.types (Some event.now) list next.expr))) held rest.now ≡ false }
{
    let mut never = first;
    for part in rest {
        never = never_joined(plan, never, part, event);
    }
    never
}

/// Whether the event alone tells that the condition doesn't hold at it, whatever was taken before.
pub fn never_met(plan: &Plan, cond: &Cond, event: &Event) -> bool
    ensures { IsTrue result → (list : List Taken) → condition_holds plan.now.types event.now list cond.now ≡ false }
{
    match cond.parts.as_slice() {
        [] => false,
        [first, rest @ ..] => {
            let first = never_true(plan, &first.expr, event);
            rest_never_holds(plan, first, rest, event)
        }
    }
}

//! What is left of an expression at an event.
ghost use Rattle.std.specs.Prelude.{◌≡◌, true, false, List, Some, IsTrue, IfSome};
ghost use Rattle.cep_plan.specs.declared.item.Taken.{Taken};
ghost use Rattle.cep_plan.specs.Answer.{is_true, compared};
ghost use Rattle.cep_plan.specs.Question.{Question};
ghost use Rattle.cep_plan.specs.Value.{value_of};
ghost use Rattle.cond_eval.specs.Asked.{questions_of};
ghost use Rattle.cond_ready.specs.Rest.{rest_holds, rest_questions, AsksOf};

use crate::alone::{asks_nothing, is_true, value_alone};
use crate::never::never_true;
use cep_event::Event;
use cep_plan::{Cmp, Expr, Plan, Val};

/// What is left of an expression at an event, where only its truth matters.
#[derive(Clone, Copy, Debug)]
pub enum Rest<'a> {
    /// Nothing: the event alone tells.
    Known(bool),
    /// A comparison whose first side the event alone tells.
    ValueFirst(Cmp, Val<'a>, &'a Expr),
    /// A comparison whose second side the event alone tells.
    ValueLast(Cmp, &'a Expr, Val<'a>),
    /// All of it.
    Whole(&'a Expr),
}

/// What is left of a comparison, where the event alone tells one side.
fn rest_of_comparison<'a>(
    plan: &'a Plan,
    cmp: Cmp,
    x: &'a Expr,
    y: &'a Expr,
    event: &'a Event,
) -> Option<Rest<'a>>
    ensures asks { IfSome result (λ rest. (qs : List Question) → AsksOf qs (questions_of x.now) → AsksOf qs (questions_of y.now)
        → AsksOf qs (rest_questions rest)) }
    ensures holds { IfSome result (λ rest. (list : List Taken) → rest_holds plan.now.types event.now list rest
        ≡ compared cmp (value_of plan.now.types (Some event.now) list x.now) (value_of plan.now.types (Some event.now) list y.now)) }
{
    if asks_nothing(x) {
        return Some(Rest::ValueFirst(cmp, value_alone(plan, x, event), y));
    }
    if asks_nothing(y) {
        return Some(Rest::ValueLast(cmp, x, value_alone(plan, y, event)));
    }
    None
}

/// Known to be false, where the event alone tells that, and else the whole expression.
fn false_or_whole<'a>(plan: &'a Plan, expr: &'a Expr, event: &'a Event) -> Rest<'a>
    ensures asks { (qs : List Question) → AsksOf qs (questions_of expr.now) → AsksOf qs (rest_questions result) }
    ensures holds { (list : List Taken)
        → rest_holds plan.now.types event.now list result ≡ is_true (value_of plan.now.types (Some event.now) list expr.now) }
{
    if never_true(plan, expr, event) {
        Rest::Known(false)
    } else {
        Rest::Whole(expr)
    }
}

/// What is left of an expression that asks something.
fn rest_of_asking<'a>(plan: &'a Plan, expr: &'a Expr, event: &'a Event) -> Rest<'a>
    ensures asks { (qs : List Question) → AsksOf qs (questions_of expr.now) → AsksOf qs (rest_questions result) }
    ensures holds { (list : List Taken)
        → rest_holds plan.now.types event.now list result ≡ is_true (value_of plan.now.types (Some event.now) list expr.now) }
{
    match expr {
        Expr::Compare(cmp, x, y) => {
            match rest_of_comparison(plan, *cmp, x.get(), y.get(), event) {
                Some(rest) => rest,
                None => Rest::Whole(expr),
            }
        }
        Expr::All(_) | Expr::Any(_) => false_or_whole(plan, expr, event),
        _ => Rest::Whole(expr),
    }
}

/// What is left of the expression at the event.
pub fn rest_of<'a>(plan: &'a Plan, expr: &'a Expr, event: &'a Event) -> Rest<'a>
    ensures asks { (qs : List Question) → AsksOf qs (questions_of expr.now) → AsksOf qs (rest_questions result) }
    ensures holds { (list : List Taken)
        → rest_holds plan.now.types event.now list result ≡ is_true (value_of plan.now.types (Some event.now) list expr.now) }
{
    if asks_nothing(expr) {
        return Rest::Known(is_true(value_alone(plan, expr, event)));
    }
    rest_of_asking(plan, expr, event)
}

/// Whether the event alone tells that it holds.
pub fn is_settled(rest: &Rest<'_>) -> bool
    ensures { IsTrue result → rest.now ≡ Rest.Known true }
{
    match rest {
        Rest::Known(truth) => *truth,
        _ => false,
    }
}

/// Whether the event alone tells that it doesn't hold.
pub fn is_refuted(rest: &Rest<'_>) -> bool
    ensures { IsTrue result → rest.now ≡ Rest.Known false }
{
    match rest {
        Rest::Known(truth) => !*truth,
        _ => false,
    }
}

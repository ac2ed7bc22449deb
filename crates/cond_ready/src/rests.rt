//! The little that is left of a condition at an event, all of which must hold.
ghost use Rattle.std.specs.Prelude.{◌≡◌, ◌&&◌, ◌||◌, true, false, List, Some, IsTrue, IfSome, fold};
ghost use Rattle.std.specs.List.{list_all, flat_map};
ghost use Rattle.cep_event.specs.declared.event.Event.{Event};
ghost use Rattle.cep_event.specs.declared.event.EventType.{EventType};
ghost use Rattle.cep_plan.specs.declared.item.Taken.{Taken};
ghost use Rattle.cep_plan.specs.Answer.{is_true};
ghost use Rattle.cep_plan.specs.Question.{Question};
ghost use Rattle.cep_plan.specs.Value.{value_of};
ghost use Rattle.cep_plan.specs.Condition.{joined, condition_holds};
ghost use Rattle.cond_eval.specs.Asked.{questions_of, questions_in};
ghost use Rattle.cond_ready.specs.Rest.{rest_holds, rest_questions, rests_hold, AsksOf, RestsAskOf};

use crate::rest::{Rest, is_refuted, is_settled, rest_of};
use cep_event::Event;
use cep_plan::{Cond, Expr, Join, Part, Plan};

/// Up to three things that are left, each of which must hold.
#[derive(Clone, Copy, Debug)]
pub struct Rests<'a> {
    pub first: Rest<'a>,
    pub second: Rest<'a>,
    pub third: Rest<'a>,
}

/// One thing that is left.
fn one_rest<'a>(rest: Rest<'a>) -> Rests<'a>
    ensures asks { (qs : List Question) → AsksOf qs (rest_questions rest.entry) → RestsAskOf qs result }
    ensures holds { (types : List EventType) (event : Event) (list : List Taken) → rests_hold types event list result ≡ rest_holds types event list rest.entry }
{
    Rests {
        first: rest,
        second: Rest::Known(true),
        third: Rest::Known(true),
    }
}

/// Whether the event alone tells that all of it holds.
pub fn are_settled(rests: &Rests<'_>) -> bool
    ensures { IsTrue result → (types : List EventType) (event : Event) (list : List Taken) → rests_hold types event list rests.now ≡ true }
{
    is_settled(&rests.first) && is_settled(&rests.second) && is_settled(&rests.third)
}

/// Whether the event alone tells that some of it doesn't hold. What is refuted stands first and alone.
pub fn are_refuted(rests: &Rests<'_>) -> bool
    ensures { IsTrue result → (types : List EventType) (event : Event) (list : List Taken) → rests_hold types event list rests.now ≡ false }
{
    is_refuted(&rests.first)
}

/// With one thing more in the first place that is free, where there is one.
fn with_more<'a>(rests: Rests<'a>, next: Rest<'a>) -> Option<Rests<'a>>
    ensures asks { IfSome result (λ made. (qs : List Question) → RestsAskOf qs rests.entry → AsksOf qs (rest_questions next.entry) → RestsAskOf qs made) }
    ensures holds { IfSome result (λ made. (types : List EventType) (event : Event) (list : List Taken) → rests_hold types event list made
        ≡ (rests_hold types event list rests.entry && rest_holds types event list next.entry)) }
{
    let Rests {
        first,
        second,
        third,
    } = rests;
    if is_settled(&first) {
        return Some(Rests {
            first: next,
            second,
            third,
        });
    }
    if is_settled(&second) {
        return Some(Rests {
            first,
            second: next,
            third,
        });
    }
    if is_settled(&third) {
        return Some(Rests {
            first,
            second,
            third: next,
        });
    }
    None
}

/// What is left of both, where there is room for it.
fn and_rest<'a>(rests: Rests<'a>, next: Rest<'a>) -> Option<Rests<'a>>
    ensures asks { IfSome result (λ made. (qs : List Question) → RestsAskOf qs rests.entry → AsksOf qs (rest_questions next.entry) → RestsAskOf qs made) }
    ensures holds { IfSome result (λ made. (types : List EventType) (event : Event) (list : List Taken) → rests_hold types event list made
        ≡ (rests_hold types event list rests.entry && rest_holds types event list next.entry)) }
{
    if is_settled(&next) || are_refuted(&rests) {
        return Some(rests);
    }
    if is_refuted(&next) {
        return Some(one_rest(next));
    }
    with_more(rests, next)
}

/// What is left of either, where the event alone tells enough of one.
fn or_rest<'a>(rests: Rests<'a>, next: Rest<'a>) -> Option<Rests<'a>>
    ensures asks { IfSome result (λ made. (qs : List Question) → RestsAskOf qs rests.entry → AsksOf qs (rest_questions next.entry) → RestsAskOf qs made) }
    ensures holds { IfSome result (λ made. (types : List EventType) (event : Event) (list : List Taken) → rests_hold types event list made
        ≡ (rests_hold types event list rests.entry || rest_holds types event list next.entry)) }
{
    if is_settled(&next) || are_refuted(&rests) {
        return Some(one_rest(next));
    }
    if is_refuted(&next) || are_settled(&rests) {
        return Some(rests);
    }
    None
}

/// With what is left of the parts, all of which must hold.
fn with_all<'a>(
    plan: &'a Plan,
    rests: Rests<'a>,
    parts: &'a [Expr],
    event: &'a Event,
) -> Option<Rests<'a>>
    ensures asks { IfSome result (λ made. (qs : List Question) → RestsAskOf qs rests.entry → AsksOf qs (flat_map questions_of parts.now)
        → RestsAskOf qs made) }
    ensures holds { IfSome result (λ made. (list : List Taken) → rests_hold plan.now.types event.now list made
        ≡ (rests_hold plan.now.types event.now list rests.entry
        && list_all (λ x. is_true (value_of plan.now.types (Some event.now) list x)) parts.now)) }
{
    let mut so_far = rests;
    for part in parts {
        match and_rest(so_far, rest_of(plan, part, event)) {
            None => return None,
            Some(more) => so_far = more,
        }
    }
    Some(so_far)
}

/// With what is left of the expression, where there is room for it. Of parts that must all hold each is looked at alone.
fn with_expr<'a>(
    plan: &'a Plan,
    rests: Rests<'a>,
    expr: &'a Expr,
    event: &'a Event,
) -> Option<Rests<'a>>
    ensures asks { IfSome result (λ made. (qs : List Question) → RestsAskOf qs rests.entry → AsksOf qs (questions_of expr.now) → RestsAskOf qs made) }
    ensures holds { IfSome result (λ made. (list : List Taken) → rests_hold plan.now.types event.now list made
        ≡ (rests_hold plan.now.types event.now list rests.entry && is_true (value_of plan.now.types (Some event.now) list expr.now))) }
{
    match expr {
        Expr::All(parts) => with_all(plan, rests, parts.as_slice(), event),
        _ => and_rest(rests, rest_of(plan, expr, event)),
    }
}

/// With what is left of one more part, by how it is joined.
fn with_part<'a>(
    plan: &'a Plan,
    rests: Rests<'a>,
    part: &'a Part,
    event: &'a Event,
) -> Option<Rests<'a>>
    ensures asks { IfSome result (λ made. (qs : List Question) → RestsAskOf qs rests.entry → AsksOf qs (questions_of part.now.expr) → RestsAskOf qs made) }
    ensures holds { IfSome result (λ made. (list : List Taken) → rests_hold plan.now.types event.now list made
        ≡ joined part.now.join (rests_hold plan.now.types event.now list rests.entry)
        (is_true (value_of plan.now.types (Some event.now) list part.now.expr))) }
{
    match part.join {
        Join::Both => with_expr(plan, rests, &part.expr, event),
        Join::Either => or_rest(rests, rest_of(plan, &part.expr, event)),
    }
}

/// What is left of the first part and the others, folded from the left.
fn with_parts<'a>(
    plan: &'a Plan,
    first: Rests<'a>,
    others: &'a [Part],
    event: &'a Event,
) -> Option<Rests<'a>>
    ensures asks { IfSome result (λ made. (qs : List Question) → RestsAskOf qs first.entry → AsksOf qs (flat_map (λ part. questions_of part.expr) others.now)
        → RestsAskOf qs made) }
    ensures holds { IfSome result (λ made. (list : List Taken) → rests_hold plan.now.types event.now list made
        ≡ fold (λ so_far next. joined next.join so_far (is_true (value_of plan.now.types (Some event.now) list next.expr)))
        (rests_hold plan.now.types event.now list first.entry) others.now) }
{
    let mut so_far = first;
    for part in others {
        match with_part(plan, so_far, part, event) {
            None => return None,
            Some(more) => so_far = more,
        }
    }
    Some(so_far)
}

/// What is left of the first part. How it is joined isn't read.
fn first_rests<'a>(plan: &'a Plan, first: &'a Expr, event: &'a Event) -> Option<Rests<'a>>
    ensures asks { IfSome result (λ made. (qs : List Question) → AsksOf qs (questions_of first.now) → RestsAskOf qs made) }
    ensures holds { IfSome result (λ made. (list : List Taken) → rests_hold plan.now.types event.now list made
        ≡ is_true (value_of plan.now.types (Some event.now) list first.now)) }
{
    with_expr(plan, one_rest(Rest::Known(true)), first, event)
}

/// What is left of the condition at the event, where that is little enough.
pub fn rests_of<'a>(plan: &'a Plan, cond: &'a Cond, event: &'a Event) -> Option<Rests<'a>>
    ensures asks { IfSome result (λ made. RestsAskOf (questions_in cond.now) made) }
    ensures holds { IfSome result (λ made. (list : List Taken) → rests_hold plan.now.types event.now list made
        ≡ condition_holds plan.now.types event.now list cond.now) }
{
    match cond.parts.as_slice() {
        [] => Some(one_rest(Rest::Known(true))),
        [first, others @ ..] => match first_rests(plan, &first.expr, event) {
            None => None,
            Some(so_far) => with_parts(plan, so_far, others, event),
        },
    }
}

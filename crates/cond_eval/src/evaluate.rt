ghost use Rattle.std.specs.Prelude.{◌≡◌, List};
ghost use Rattle.std.specs.List.{All, flat_map, list_any, list_all};
ghost use Rattle.std.specs.Option.{option_copied};
ghost use Rattle.cep_event.specs.declared.event.EventType.{EventType};
ghost use Rattle.cep_plan.specs.declared.item.Taken.{Taken};
ghost use Rattle.cep_plan.specs.Answer.{answer_seen, is_true, add_part, multiply_part};
ghost use Rattle.cep_plan.specs.Question.{how_many, aggregate, answer_to};
ghost use Rattle.cep_plan.specs.Value.{value_of};
ghost use Rattle.cond_eval.specs.Asked.{questions_of};
ghost use Rattle.cond_eval.specs.Chain.{sum_of, product_of};

use crate::answer::{compared, is_true, minus, negated, over, plus, rest, times};
use crate::field::value_held;
use cep_event::Event;
use cep_plan::{Agg, Expr, Factor, How, Matched, Plan, Term, Val};

fn count<'a, M: Matched>(taken: &'a M, stage: u16) -> Val<'a>
    requires { M.can_answer taken.now (how_many stage) }
    ensures { (types : List EventType) (list : List Taken) → M.stands_for taken.now types list → answer_seen result ≡ answer_to types list (how_many stage) }
{
    Val::Int(i64::from(taken.count(stage)))
}

fn aggregate<'a, M: Matched>(taken: &'a M, agg: Agg, stage: u16, field: u16) -> Val<'a>
    requires { M.can_answer taken.now (aggregate agg stage field) }
    ensures { (types : List EventType) (list : List Taken) → M.stands_for taken.now types list
        → answer_seen result ≡ answer_to types list (aggregate agg stage field) }
{
    match agg {
        Agg::Sum => taken.sum(stage, field),
        Agg::Min => taken.min(stage, field),
        Agg::Max => taken.max(stage, field),
        Agg::First => taken.first(stage, field),
        Agg::Last => taken.last(stage, field),
    }
}

fn add_part<'a>(so_far: Val<'a>, is_taken_off: bool, part: Val<'a>) -> Val<'a>
    ensures { answer_seen result ≡ add_part (answer_seen so_far.entry) (is_taken_off, answer_seen part.entry) }
{
    if is_taken_off {
        minus(so_far, part)
    } else {
        plus(so_far, part)
    }
}

fn multiply_part<'a>(so_far: Val<'a>, how: How, part: Val<'a>) -> Val<'a>
    ensures { answer_seen result ≡ multiply_part (answer_seen so_far.entry) (how, answer_seen part.entry) }
{
    match how {
        How::Times => times(so_far, part),
        How::Over => over(so_far, part),
        How::Rest => rest(so_far, part),
    }
}

#[cycle(value)]
fn any_true<M: Matched>(plan: &Plan, parts: &[Expr], event: Option<&Event>, taken: &M) -> bool
    requires { All (M.can_answer taken.now) (flat_map questions_of parts.now) }
    ensures { (list : List Taken) → M.stands_for taken.now plan.now.types list
        → result ≡ list_any (λ x. is_true (value_of plan.now.types (option_copied event.entry) list x)) parts.now }
{
    for part in parts {
        if is_true(value(plan, part, event, taken)) {
            return true;
        }
    }
    false
}

#[cycle(value)]
fn all_true<M: Matched>(plan: &Plan, parts: &[Expr], event: Option<&Event>, taken: &M) -> bool
    requires { All (M.can_answer taken.now) (flat_map questions_of parts.now) }
    ensures { (list : List Taken) → M.stands_for taken.now plan.now.types list
        → result ≡ list_all (λ x. is_true (value_of plan.now.types (option_copied event.entry) list x)) parts.now }
{
    for part in parts {
        if !is_true(value(plan, part, event, taken)) {
            return false;
        }
    }
    true
}

#[cycle(value)]
fn sum<'a, M: Matched>(
    plan: &'a Plan,
    terms: &'a [Term],
    event: Option<&'a Event>,
    taken: &'a M,
) -> Val<'a>
    requires { All (M.can_answer taken.now) (flat_map (λ term. questions_of term.expr) terms.now) }
    ensures { (list : List Taken) → M.stands_for taken.now plan.now.types list
        → answer_seen result ≡ sum_of (value_of plan.now.types (option_copied event.entry) list) terms.now }
{
    let mut so_far = Val::Int(0);
    for term in terms {
        so_far = add_part(so_far, term.minus, value(plan, &term.expr, event, taken));
    }
    so_far
}

#[cycle(value)]
fn product<'a, M: Matched>(
    plan: &'a Plan,
    factors: &'a [Factor],
    event: Option<&'a Event>,
    taken: &'a M,
) -> Val<'a>
    requires { All (M.can_answer taken.now) (flat_map (λ factor. questions_of factor.expr) factors.now) }
    ensures { (list : List Taken) → M.stands_for taken.now plan.now.types list
        → answer_seen result ≡ product_of (value_of plan.now.types (option_copied event.entry) list) factors.now }
{
    let mut so_far = Val::Int(1);
    for factor in factors {
        so_far = multiply_part(so_far, factor.how, value(plan, &factor.expr, event, taken));
    }
    so_far
}

/// The value of the expression at the event, or at no event. It borrows a text from wherever that stands. Of `||` and `&&` no more parts are looked at than it takes.
#[cycle(value)]
pub fn value<'a, M: Matched>(
    plan: &'a Plan,
    expr: &'a Expr,
    event: Option<&'a Event>,
    taken: &'a M,
) -> Val<'a>
    requires { All (M.can_answer taken.now) (questions_of expr.now) }
    ensures { (list : List Taken) → M.stands_for taken.now plan.now.types list
        → answer_seen result ≡ value_of plan.now.types (option_copied event.entry) list expr.now }
{
    match expr {
        Expr::Int(number) => Val::Int(*number),
        Expr::Text(text) => Val::Text(text),
        Expr::Bool(truth) => Val::Bool(*truth),
        Expr::Field(field) => value_held(plan.types.as_slice(), *field, event),
        Expr::Count(stage) => count(taken, *stage),
        Expr::Of(agg, stage, field) => aggregate(taken, *agg, *stage, *field),
        Expr::Any(parts) => Val::Bool(any_true(plan, parts.as_slice(), event, taken)),
        Expr::All(parts) => Val::Bool(all_true(plan, parts.as_slice(), event, taken)),
        Expr::Compare(cmp, x, y) => {
            let x = value(plan, x.get(), event, taken);
            let y = value(plan, y.get(), event, taken);
            Val::Bool(compared(*cmp, x, y))
        }
        Expr::Add(terms) => sum(plan, terms.as_slice(), event, taken),
        Expr::Mul(factors) => product(plan, factors.as_slice(), event, taken),
        Expr::Not(x) => Val::Bool(!is_true(value(plan, x.get(), event, taken))),
        Expr::Neg(x) => negated(value(plan, x.get(), event, taken)),
    }
}

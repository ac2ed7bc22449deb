//! What an expression that asks nothing of the taken events is at an event.
ghost use Rattle.std.specs.Prelude.{◌≡◌, true, IsTrue, List, [], Some};
ghost use Rattle.std.specs.List.{flat_map};
ghost use Rattle.cep_plan.specs.declared.item.Taken.{Taken};
ghost use Rattle.cep_plan.specs.Answer.{answer_seen, is_true};
ghost use Rattle.cep_plan.specs.Value.{value_of};
ghost use Rattle.cond_eval.specs.Asked.{questions_of};

use cep_event::Event;
use cep_plan::{Expr, Factor, Matched, Plan, Term, Val};
use cond_eval::value;

/// Taken events of which nothing is known but that there are none, where even that is known.
/// Where it isn't, no question is answered, so what is found without asking holds with any list.
#[derive(Debug, Drop)]
struct Alone {
    is_empty: bool,
}

impl Matched for Alone {
    ghost can_answer = { λ a _. a.is_empty ≡ true };

    ghost stands_for = { λ a _ list. a.is_empty ≡ true → list ≡ [] };

    fn count(&self, _stage: u16) -> u32 {
        0
    }

    fn sum(&self, _stage: u16, _field: u16) -> Val<'_> {
        Val::Int(0)
    }

    fn min(&self, _stage: u16, _field: u16) -> Val<'_> {
        Val::Missing
    }

    fn max(&self, _stage: u16, _field: u16) -> Val<'_> {
        Val::Missing
    }

    fn first(&self, _stage: u16, _field: u16) -> Val<'_> {
        Val::Missing
    }

    fn last(&self, _stage: u16, _field: u16) -> Val<'_> {
        Val::Missing
    }
}

const NOTHING_KNOWN: Alone = Alone { is_empty: false };

#[cycle(asking)]
fn parts_ask_nothing(parts: &[Expr]) -> bool
    ensures { IsTrue result → flat_map questions_of parts.now ≡ [] }
{
    for part in parts {
        if !asks_nothing(part) {
            return false;
        }
    }
    true
}

#[cycle(asking)]
fn terms_ask_nothing(terms: &[Term]) -> bool
    ensures { IsTrue result → flat_map (λ term. questions_of term.expr) terms.now ≡ [] }
{
    for term in terms {
        if !asks_nothing(&term.expr) {
            return false;
        }
    }
    true
}

#[cycle(asking)]
fn factors_ask_nothing(factors: &[Factor]) -> bool
    ensures { IsTrue result → flat_map (λ factor. questions_of factor.expr) factors.now ≡ [] }
{
    for factor in factors {
        if !asks_nothing(&factor.expr) {
            return false;
        }
    }
    true
}

/// Whether the expression asks nothing of the taken events.
#[cycle(asking)]
pub fn asks_nothing(expr: &Expr) -> bool
    ensures { IsTrue result → questions_of expr.now ≡ [] }
{
    match expr {
        Expr::Int(_) => true,
        Expr::Text(_) => true,
        Expr::Bool(_) => true,
        Expr::Field(_) => true,
        Expr::Count(_) => false,
        Expr::Of(_, _, _) => false,
        Expr::Any(parts) => parts_ask_nothing(parts.as_slice()),
        Expr::All(parts) => parts_ask_nothing(parts.as_slice()),
        Expr::Compare(_, x, y) => {
            let left = asks_nothing(x.get());
            let right = asks_nothing(y.get());
            left && right
        }
        Expr::Add(terms) => terms_ask_nothing(terms.as_slice()),
        Expr::Mul(factors) => factors_ask_nothing(factors.as_slice()),
        Expr::Not(x) => asks_nothing(x.get()),
        Expr::Neg(x) => asks_nothing(x.get()),
    }
}

/// The value of an expression that asks nothing of the taken events.
pub fn value_alone<'a>(plan: &'a Plan, expr: &'a Expr, event: &'a Event) -> Val<'a>
    requires { questions_of expr.now ≡ [] }
    ensures { (list : List Taken) → answer_seen result ≡ value_of plan.now.types (Some event.now) list expr.now }
{
    value(plan, expr, Some(event), &NOTHING_KNOWN)
}

pub fn is_true(val: Val<'_>) -> bool
    ensures { result ≡ is_true (answer_seen val.entry) }
{
    match val {
        Val::Bool(truth) => truth,
        _ => false,
    }
}

ghost use Rattle.std.specs.Prelude.{◌≡◌};
ghost use Rattle.cep_plan.specs.Answer.{answer_seen, text, in_word, is_true, negated, plus, minus, times, over, rest, compares, compared};
ghost use Rattle.cond_eval.specs.Known.{number_if_known};

use cep_event::Text;
use cep_plan::{Cmp, Val};

/// The number, and else Missing.
pub fn number_if_known<'a>(number: Option<i64>) -> Val<'a>
    ensures { answer_seen result ≡ number_if_known number }
{
    match number {
        Some(number) => Val::Int(number),
        None => Val::Missing,
    }
}

/// The number where it fits 64 bits, and else Missing.
pub fn in_word<'a>(number: i128) -> Val<'a>
    ensures { answer_seen result ≡ in_word number }
{
    number_if_known(i64::try_from(number).ok())
}

pub fn is_true(val: Val<'_>) -> bool
    ensures { result ≡ is_true (answer_seen val.entry) }
{
    match val {
        Val::Bool(truth) => truth,
        _ => false,
    }
}

pub fn plus<'a>(x: Val<'a>, y: Val<'a>) -> Val<'a>
    ensures { answer_seen result ≡ plus (answer_seen x.entry) (answer_seen y.entry) }
{
    match (x, y) {
        (Val::Int(x), Val::Int(y)) => number_if_known(x.checked_add(y)),
        _ => Val::Missing,
    }
}

pub fn minus<'a>(x: Val<'a>, y: Val<'a>) -> Val<'a>
    ensures { answer_seen result ≡ minus (answer_seen x.entry) (answer_seen y.entry) }
{
    match (x, y) {
        (Val::Int(x), Val::Int(y)) => number_if_known(x.checked_sub(y)),
        _ => Val::Missing,
    }
}

pub fn times<'a>(x: Val<'a>, y: Val<'a>) -> Val<'a>
    ensures { answer_seen result ≡ times (answer_seen x.entry) (answer_seen y.entry) }
{
    match (x, y) {
        (Val::Int(x), Val::Int(y)) => number_if_known(x.checked_mul(y)),
        _ => Val::Missing,
    }
}

pub fn over<'a>(x: Val<'a>, y: Val<'a>) -> Val<'a>
    ensures { answer_seen result ≡ over (answer_seen x.entry) (answer_seen y.entry) }
{
    match (x, y) {
        (Val::Int(x), Val::Int(y)) => number_if_known(x.checked_div(y)),
        _ => Val::Missing,
    }
}

pub fn rest<'a>(x: Val<'a>, y: Val<'a>) -> Val<'a>
    ensures { answer_seen result ≡ rest (answer_seen x.entry) (answer_seen y.entry) }
{
    match (x, y) {
        (Val::Int(_), Val::Int(0)) => Val::Missing,
        (Val::Int(x), Val::Int(y)) => Val::Int(x.wrapping_rem(y)),
        _ => Val::Missing,
    }
}

pub fn negated(x: Val<'_>) -> Val<'_>
    ensures { answer_seen result ≡ negated (answer_seen x.entry) }
{
    match x {
        Val::Int(x) => number_if_known(x.checked_neg()),
        _ => Val::Missing,
    }
}

fn compares(cmp: Cmp, less: bool, equal: bool) -> bool
    ensures { result ≡ compares cmp less equal }
{
    match cmp {
        Cmp::Eq => equal,
        Cmp::Ne => !equal,
        Cmp::Lt => less,
        Cmp::Le => less || equal,
        Cmp::Gt => !(less || equal),
        Cmp::Ge => !less,
    }
}

/// A pass over the bytes for each test that the comparison needs.
fn texts_compare(cmp: Cmp, x: &Text, y: &Text) -> bool
    ensures { result ≡ compared cmp (text x.now) (text y.now) }
{
    match cmp {
        Cmp::Eq => x.same(y),
        Cmp::Ne => !x.same(y),
        Cmp::Lt => x.before(y),
        Cmp::Le => x.before(y) || x.same(y),
        Cmp::Gt => !(x.before(y) || x.same(y)),
        Cmp::Ge => !x.before(y),
    }
}

pub fn compared(cmp: Cmp, x: Val<'_>, y: Val<'_>) -> bool
    ensures { result ≡ compared cmp (answer_seen x.entry) (answer_seen y.entry) }
{
    match (x, y) {
        (Val::Int(x), Val::Int(y)) => compares(cmp, x < y, x == y),
        (Val::Text(x), Val::Text(y)) => texts_compare(cmp, x, y),
        _ => false,
    }
}

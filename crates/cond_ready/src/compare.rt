//! A comparison of two values.
ghost use Rattle.std.specs.Prelude.{◌≡◌};
ghost use Rattle.cep_plan.specs.Answer.{answer_seen, text, compares, compared};

use cep_event::Text;
use cep_plan::{Cmp, Val};

fn compares(cmp: Cmp, less: bool, equal: bool) -> bool
    ensures { result ≡ compares cmp less equal }
{
    match cmp {
        Cmp::Eq => equal,
        Cmp::Ne => !equal,
        Cmp::Lt => less,
        Cmp::Le => less || equal,
        Cmp::Gt => !(less || equal),
        Cmp::Ge => !less,
    }
}

/// A pass over the bytes for each test that the comparison needs.
fn texts_compare(cmp: Cmp, x: &Text, y: &Text) -> bool
    ensures { result ≡ compared cmp (text x.now) (text y.now) }
{
    match cmp {
        Cmp::Eq => x.same(y),
        Cmp::Ne => !x.same(y),
        Cmp::Lt => x.before(y),
        Cmp::Le => x.before(y) || x.same(y),
        Cmp::Gt => !(x.before(y) || x.same(y)),
        Cmp::Ge => !x.before(y),
    }
}

pub fn compared(cmp: Cmp, x: Val<'_>, y: Val<'_>) -> bool
    ensures { result ≡ compared cmp (answer_seen x.entry) (answer_seen y.entry) }
{
    match (x, y) {
        (Val::Int(x), Val::Int(y)) => compares(cmp, x < y, x == y),
        (Val::Text(x), Val::Text(y)) => texts_compare(cmp, x, y),
        _ => false,
    }
}

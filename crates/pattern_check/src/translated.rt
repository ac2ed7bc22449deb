//! Operators of a plan.

ghost use Rattle.std.specs.Prelude.{◌≡◌};
ghost use Rattle.pattern_check.specs.Translated as spec;

use cep_plan::{Agg, Cmp, How, Join};

pub fn agg_of(agg: cep_syntax::Agg) -> Agg
    ensures { result ≡ spec.agg_of agg }
{
    match agg {
        cep_syntax::Agg::Sum => Agg::Sum,
        cep_syntax::Agg::Min => Agg::Min,
        cep_syntax::Agg::Max => Agg::Max,
        cep_syntax::Agg::First => Agg::First,
        cep_syntax::Agg::Last => Agg::Last,
    }
}

pub fn cmp_of(cmp: cep_syntax::Cmp) -> Cmp
    ensures { result ≡ spec.cmp_of cmp }
{
    match cmp {
        cep_syntax::Cmp::Eq => Cmp::Eq,
        cep_syntax::Cmp::Ne => Cmp::Ne,
        cep_syntax::Cmp::Lt => Cmp::Lt,
        cep_syntax::Cmp::Le => Cmp::Le,
        cep_syntax::Cmp::Gt => Cmp::Gt,
        cep_syntax::Cmp::Ge => Cmp::Ge,
    }
}

pub fn how_of(how: cep_syntax::How) -> How
    ensures { result ≡ spec.how_of how }
{
    match how {
        cep_syntax::How::Times => How::Times,
        cep_syntax::How::Over => How::Over,
        cep_syntax::How::Rest => How::Rest,
    }
}

pub fn join_of(join: cep_syntax::Join) -> Join
    ensures { result ≡ spec.join_of join }
{
    match join {
        cep_syntax::Join::Both => Join::Both,
        cep_syntax::Join::Either => Join::Either,
    }
}

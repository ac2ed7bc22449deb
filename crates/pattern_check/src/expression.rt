//! Expressions of a plan.

ghost use Rattle.std.specs.Prelude.{◌≡◌, ◌≤◌, length, map, IfOk};
ghost use Rattle.pattern_check.specs.Translated as spec;

use crate::number::{field_number, stages_before, whole};
use crate::translated::{agg_of, cmp_of, how_of};
use cep_event::NoMemory;
use cep_plan::{Expr, Factor, Term};
use cep_syntax::{Opener, SynExpr, SynFactor, SynNode, SynTerm};
use pattern_rules::KnownFields;
use sqlite_items::{Boxed, Items};
use std::alloc::Global;

#[cycle(translation)]
fn exprs_of(
    alloc: Global,
    fields: &KnownFields,
    openers: &[Opener],
    parts: &[SynExpr],
) -> Result<Items<Expr>, NoMemory>
    requires { length openers.now ≤ 64 }
    ensures { IfOk result (λ made. made ≡ map (spec.expr_of fields.now openers.now) parts.now) }
{
    let mut made = Items::new(alloc);
    for part in parts {
        let expr = expr_of(alloc, fields, openers, part)?;
        made.push(expr)?;
    }
    Ok(made)
}

#[cycle(translation)]
fn terms_of(
    alloc: Global,
    fields: &KnownFields,
    openers: &[Opener],
    terms: &[SynTerm],
) -> Result<Items<Term>, NoMemory>
    requires { length openers.now ≤ 64 }
    ensures { IfOk result (λ made. made ≡ map (spec.term_of fields.now openers.now) terms.now) }
{
    let mut made = Items::new(alloc);
    for term in terms {
        let expr = expr_of(alloc, fields, openers, &term.expr)?;
        made.push(Term {
            minus: term.minus,
            expr,
        })?;
    }
    Ok(made)
}

#[cycle(translation)]
fn factors_of(
    alloc: Global,
    fields: &KnownFields,
    openers: &[Opener],
    factors: &[SynFactor],
) -> Result<Items<Factor>, NoMemory>
    requires { length openers.now ≤ 64 }
    ensures { IfOk result (λ made. made ≡ map (spec.factor_of fields.now openers.now) factors.now) }
{
    let mut made = Items::new(alloc);
    for factor in factors {
        let expr = expr_of(alloc, fields, openers, &factor.expr)?;
        made.push(Factor {
            how: how_of(factor.how),
            expr,
        })?;
    }
    Ok(made)
}

/// The expression with numbers in place of names.
#[cycle(translation)]
#[tactic(auto, unfolding(crate::specs::Translated::expr_of))]
pub fn expr_of(
    alloc: Global,
    fields: &KnownFields,
    openers: &[Opener],
    expr: &SynExpr,
) -> Result<Expr, NoMemory>
    requires { length openers.now ≤ 64 }
    ensures { IfOk result (λ made. made ≡ spec.expr_of fields.now openers.now expr.now) }
{
    match &expr.node {
        SynNode::Int(number) => Ok(Expr::Int(whole(*number))),
        SynNode::Text(text) => {
            let text = text.copy()?;
            Ok(Expr::Text(text))
        }
        SynNode::Bool(truth) => Ok(Expr::Bool(*truth)),
        SynNode::Field(name) => Ok(Expr::Field(field_number(fields, &name.text))),
        SynNode::Count(name) => Ok(Expr::Count(stages_before(openers, &name.text))),
        SynNode::Of(agg, name, field) => Ok(Expr::Of(
            agg_of(*agg),
            stages_before(openers, &name.text),
            field_number(fields, &field.text),
        )),
        SynNode::Any(parts) => {
            let parts = exprs_of(alloc, fields, openers, parts.as_slice())?;
            Ok(Expr::Any(parts))
        }
        SynNode::All(parts) => {
            let parts = exprs_of(alloc, fields, openers, parts.as_slice())?;
            Ok(Expr::All(parts))
        }
        SynNode::Compare(cmp, left, right) => {
            let left = expr_of(alloc, fields, openers, left.get())?;
            let right = expr_of(alloc, fields, openers, right.get())?;
            let left = Boxed::new(alloc, left)?;
            let right = Boxed::new(alloc, right)?;
            Ok(Expr::Compare(cmp_of(*cmp), left, right))
        }
        SynNode::Add(terms) => {
            let terms = terms_of(alloc, fields, openers, terms.as_slice())?;
            Ok(Expr::Add(terms))
        }
        SynNode::Mul(factors) => {
            let factors = factors_of(alloc, fields, openers, factors.as_slice())?;
            Ok(Expr::Mul(factors))
        }
        SynNode::Not(operand) => {
            let operand = expr_of(alloc, fields, openers, operand.get())?;
            let operand = Boxed::new(alloc, operand)?;
            Ok(Expr::Not(operand))
        }
        SynNode::Neg(operand) => {
            let operand = expr_of(alloc, fields, openers, operand.get())?;
            let operand = Boxed::new(alloc, operand)?;
            Ok(Expr::Neg(operand))
        }
    }
}

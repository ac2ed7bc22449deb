//! Whether two expressions are the same but for their places.

ghost use Rattle.std.specs.Prelude.{◌≡◌, ◌↔◌, IsTrue, map};
ghost use Rattle.cep_print.specs.Same as spec;

use cep_expression::{SynExpr, SynFactor, SynNode, SynTerm};
use cep_reading::Name;

/// Whether the two names have one text.
pub fn same_name(one: &Name, other: &Name) -> bool
    ensures { IsTrue result ↔ (spec.unplaced_name one.now ≡ spec.unplaced_name other.now) }
{
    one.text.same(&other.text)
}

fn all_three(first: bool, second: bool, third: bool) -> bool
    ensures { IsTrue result ↔ (IsTrue first × IsTrue second × IsTrue third) }
{
    first && second && third
}

#[cycle(same_expression)]
fn same_parts(parts: &[SynExpr], others: &[SynExpr]) -> bool
    ensures { IsTrue result ↔ (map spec.unplaced parts.now ≡ map spec.unplaced others.now) }
{
    if parts.len() != others.len() {
        return false;
    }
    for place in 0..parts.len() {
        if !same_expression(&parts[place], &others[place]) {
            return false;
        }
    }
    true
}

#[cycle(same_expression)]
fn same_term(one: &SynTerm, other: &SynTerm) -> bool
    ensures { IsTrue result ↔ (spec.unplaced_term one.now ≡ spec.unplaced_term other.now) }
{
    let is_same = same_expression(&one.expr, &other.expr);
    one.minus == other.minus && is_same
}

#[cycle(same_expression)]
fn same_terms(terms: &[SynTerm], others: &[SynTerm]) -> bool
    ensures { IsTrue result ↔ (map spec.unplaced_term terms.now ≡ map spec.unplaced_term others.now) }
{
    if terms.len() != others.len() {
        return false;
    }
    for place in 0..terms.len() {
        if !same_term(&terms[place], &others[place]) {
            return false;
        }
    }
    true
}

#[cycle(same_expression)]
fn same_factor(one: &SynFactor, other: &SynFactor) -> bool
    ensures { IsTrue result ↔ (spec.unplaced_factor one.now ≡ spec.unplaced_factor other.now) }
{
    let is_same = same_expression(&one.expr, &other.expr);
    one.how == other.how && is_same
}

#[cycle(same_expression)]
fn same_factors(factors: &[SynFactor], others: &[SynFactor]) -> bool
    ensures { IsTrue result ↔ (map spec.unplaced_factor factors.now ≡ map spec.unplaced_factor others.now) }
{
    if factors.len() != others.len() {
        return false;
    }
    for place in 0..factors.len() {
        if !same_factor(&factors[place], &others[place]) {
            return false;
        }
    }
    true
}

/// Whether the two are the same but for their places.
#[cycle(same_expression)]
pub fn same_expression(one: &SynExpr, other: &SynExpr) -> bool
    ensures { IsTrue result ↔ (spec.unplaced one.now ≡ spec.unplaced other.now) }
{
    match (&one.node, &other.node) {
        (SynNode::Int(number), SynNode::Int(other)) => *number == *other,
        (SynNode::Text(text), SynNode::Text(other)) => text.same(other),
        (SynNode::Bool(truth), SynNode::Bool(other)) => *truth == *other,
        (SynNode::Field(name), SynNode::Field(other)) => same_name(name, other),
        (SynNode::Count(name), SynNode::Count(other)) => same_name(name, other),
        (SynNode::Of(agg, name, field), SynNode::Of(how, other, of)) => {
            *agg == *how && same_name(name, other) && same_name(field, of)
        }
        (SynNode::Any(parts), SynNode::Any(others)) => {
            same_parts(parts.as_slice(), others.as_slice())
        }
        (SynNode::All(parts), SynNode::All(others)) => {
            same_parts(parts.as_slice(), others.as_slice())
        }
        (SynNode::Compare(cmp, x, y), SynNode::Compare(how, z, w)) => {
            let is_same_left = same_expression(x.get(), z.get());
            let is_same_right = same_expression(y.get(), w.get());
            all_three(*cmp == *how, is_same_left, is_same_right)
        }
        (SynNode::Add(terms), SynNode::Add(others)) => {
            same_terms(terms.as_slice(), others.as_slice())
        }
        (SynNode::Mul(factors), SynNode::Mul(others)) => {
            same_factors(factors.as_slice(), others.as_slice())
        }
        (SynNode::Not(x), SynNode::Not(y)) => same_expression(x.get(), y.get()),
        (SynNode::Neg(x), SynNode::Neg(y)) => same_expression(x.get(), y.get()),
        _ => false,
    }
}

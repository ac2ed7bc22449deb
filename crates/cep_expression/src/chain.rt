//! What operands make. One alone is itself.

ghost use Rattle.std.specs.Prelude.{◌≡◌, IfOk};
ghost use Rattle.cep_expression.specs.Grammar as grammar;

use crate::expr::{Cmp, How, SynExpr, SynFactor, SynNode, SynTerm};
use crate::sign::Prefix;
use sqlite_items::{Boxed, Items};
use std::alloc::{AllocError, Global};

pub fn prefixed(alloc: Global, how: Prefix, operand: SynExpr) -> Result<SynNode, AllocError>
    ensures { IfOk result (λ made. made ≡ grammar.prefixed how operand) }
{
    let operand = Boxed::new(alloc, operand)?;
    Ok(match how {
        Prefix::Not => SynNode::Not(operand),
        Prefix::Neg => SynNode::Neg(operand),
    })
}

pub fn product_of(
    alloc: Global,
    place: u32,
    first: SynExpr,
    more: Items<SynFactor>,
) -> Result<SynExpr, AllocError>
    ensures { IfOk result (λ made. made ≡ grammar.product_of (place, (first, more))) }
{
    if more.is_empty() {
        return Ok(first);
    }
    let mut factors = Items::new(alloc);
    factors.push(SynFactor {
        how: How::Times,
        expr: first,
    })?;
    factors.append(more)?;
    Ok(SynExpr {
        place,
        node: SynNode::Mul(factors),
    })
}

pub fn sum_of(
    alloc: Global,
    place: u32,
    first: SynExpr,
    more: Items<SynTerm>,
) -> Result<SynExpr, AllocError>
    ensures { IfOk result (λ made. made ≡ grammar.sum_of (place, (first, more))) }
{
    if more.is_empty() {
        return Ok(first);
    }
    let mut terms = Items::new(alloc);
    terms.push(SynTerm {
        minus: false,
        expr: first,
    })?;
    terms.append(more)?;
    Ok(SynExpr {
        place,
        node: SynNode::Add(terms),
    })
}

pub fn comparison_of(
    alloc: Global,
    place: u32,
    left: SynExpr,
    other: Option<(Cmp, SynExpr)>,
) -> Result<SynExpr, AllocError>
    ensures { IfOk result (λ made. made ≡ grammar.comparison_of (place, (left, other))) }
{
    match other {
        None => Ok(left),
        Some((how, right)) => {
            let left = Boxed::new(alloc, left)?;
            let right = Boxed::new(alloc, right)?;
            Ok(SynExpr {
                place,
                node: SynNode::Compare(how, left, right),
            })
        }
    }
}

pub fn all_of(
    alloc: Global,
    place: u32,
    first: SynExpr,
    more: Items<SynExpr>,
) -> Result<SynExpr, AllocError>
    ensures { IfOk result (λ made. made ≡ grammar.all_of (place, (first, more))) }
{
    if more.is_empty() {
        return Ok(first);
    }
    let mut parts = Items::new(alloc);
    parts.push(first)?;
    parts.append(more)?;
    Ok(SynExpr {
        place,
        node: SynNode::All(parts),
    })
}

pub fn any_of(
    alloc: Global,
    place: u32,
    first: SynExpr,
    more: Items<SynExpr>,
) -> Result<SynExpr, AllocError>
    ensures { IfOk result (λ made. made ≡ grammar.any_of (place, (first, more))) }
{
    if more.is_empty() {
        return Ok(first);
    }
    let mut parts = Items::new(alloc);
    parts.push(first)?;
    parts.append(more)?;
    Ok(SynExpr {
        place,
        node: SynNode::Any(parts),
    })
}

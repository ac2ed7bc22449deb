//! Expressions, with as few parentheses as they need.

ghost use Rattle.std.specs.Prelude.{◌≡◌, ◌++◌, [], if◌then◌else◌, string_bytes, decimal, map, OnOk};
ghost use Rattle.cep_print.specs.Expression as spec;

use crate::literal::put_literal;
use cep_event::{NoMemory, Text};
use cep_expression::{Agg, Cmp, How, SynExpr, SynFactor, SynNode, SynTerm};
use itoa::Buffer;
use std::alloc::Global;

/// Adds the number in tens.
pub fn put_number(out: &mut String, number: u64) -> Result<(), NoMemory>
    ensures { OnOk result (string_bytes out.new ≡ string_bytes out.old ++ decimal number) }
{
    let mut buffer = Buffer::new();
    out.push_str(buffer.format(number))?;
    Ok(())
}

fn cmp_text(cmp: Cmp) -> &'static str
    ensures { result.now ≡ spec.cmp_text cmp }
{
    match cmp {
        Cmp::Eq => " == ",
        Cmp::Ne => " != ",
        Cmp::Lt => " < ",
        Cmp::Le => " <= ",
        Cmp::Gt => " > ",
        Cmp::Ge => " >= ",
    }
}

fn term_sign(minus: bool) -> &'static str
    ensures { result.now ≡ spec.term_sign minus }
{
    if minus { " - " } else { " + " }
}

fn factor_sign(how: How) -> &'static str
    ensures { result.now ≡ spec.factor_sign how }
{
    match how {
        How::Times => " * ",
        How::Over => " / ",
        How::Rest => " % ",
    }
}

fn truth_text(truth: bool) -> &'static str
    ensures { result.now ≡ spec.truth_text truth }
{
    if truth { "true" } else { "false" }
}

fn put_count(alloc: Global, out: &mut String, stage: &Text) -> Result<(), NoMemory>
    ensures { OnOk result (string_bytes out.new ≡ string_bytes out.old ++ spec.count_text stage.now) }
{
    out.push_str("count(")?;
    put_literal(alloc, out, stage)?;
    out.push_str(")")?;
    Ok(())
}

fn put_edge(
    alloc: Global,
    out: &mut String,
    word: &str,
    stage: &Text,
    field: &Text,
) -> Result<(), NoMemory>
    ensures { OnOk result (string_bytes out.new ≡ string_bytes out.old ++ spec.edge_text word.now stage.now field.now) }
{
    out.push_str(word)?;
    out.push_str("(")?;
    put_literal(alloc, out, stage)?;
    out.push_str(").")?;
    out.push_str(field.as_str())?;
    Ok(())
}

fn put_total(
    alloc: Global,
    out: &mut String,
    word: &str,
    stage: &Text,
    field: &Text,
) -> Result<(), NoMemory>
    ensures { OnOk result (string_bytes out.new ≡ string_bytes out.old ++ spec.total_text word.now stage.now field.now) }
{
    out.push_str(word)?;
    out.push_str("(")?;
    put_literal(alloc, out, stage)?;
    out.push_str(".")?;
    out.push_str(field.as_str())?;
    out.push_str(")")?;
    Ok(())
}

fn put_aggregate(
    alloc: Global,
    out: &mut String,
    agg: Agg,
    stage: &Text,
    field: &Text,
) -> Result<(), NoMemory>
    ensures { OnOk result (string_bytes out.new ≡ string_bytes out.old ++ spec.aggregate_text agg stage.now field.now) }
{
    match agg {
        Agg::Sum => put_total(alloc, out, "sum", stage, field),
        Agg::Min => put_total(alloc, out, "min", stage, field),
        Agg::Max => put_total(alloc, out, "max", stage, field),
        Agg::First => put_edge(alloc, out, "first", stage, field),
        Agg::Last => put_edge(alloc, out, "last", stage, field),
    }
}

fn level_of(node: &SynNode) -> u8
    ensures { result ≡ spec.level_of node.now }
{
    match node {
        SynNode::Any(_) => 1,
        SynNode::All(_) => 2,
        SynNode::Compare(_, _, _) => 3,
        SynNode::Add(_) => 4,
        SynNode::Mul(_) => 5,
        SynNode::Not(_) => 6,
        SynNode::Neg(_) => 6,
        SynNode::Int(_) => 7,
        SynNode::Text(_) => 7,
        SynNode::Bool(_) => 7,
        SynNode::Field(_) => 7,
        SynNode::Count(_) => 7,
        SynNode::Of(_, _, _) => 7,
    }
}

/// Adds what stands before a part, which is nothing before the first.
pub fn put_sign(out: &mut String, is_first: bool, sign: &str) -> Result<(), NoMemory>
    ensures { OnOk result (string_bytes out.new ≡ string_bytes out.old ++ (if is_first then [] else sign.now)) }
{
    if !is_first {
        out.push_str(sign)?;
    }
    Ok(())
}

#[cycle(expression)]
fn put_operand(alloc: Global, out: &mut String, around: u8, expr: &SynExpr) -> Result<(), NoMemory>
    ensures { OnOk result (string_bytes out.new ≡ string_bytes out.old ++ spec.operand_text around expr.now) }
{
    if around < level_of(&expr.node) {
        put_expression(alloc, out, expr)
    } else {
        out.push_str("(")?;
        put_expression(alloc, out, expr)?;
        out.push_str(")")?;
        Ok(())
    }
}

#[cycle(expression)]
fn put_parts(
    alloc: Global,
    out: &mut String,
    between: &str,
    around: u8,
    parts: &[SynExpr],
) -> Result<(), NoMemory>
    ensures { OnOk result (string_bytes out.new ≡ string_bytes out.old ++ spec.chained (map (spec.part_of between.now around) parts.now)) }
{
    let mut is_first = true;
    for part in parts {
        put_sign(out, is_first, between)?;
        put_operand(alloc, out, around, part)?;
        is_first = false;
    }
    Ok(())
}

#[cycle(expression)]
fn put_terms(alloc: Global, out: &mut String, terms: &[SynTerm]) -> Result<(), NoMemory>
    ensures { OnOk result (string_bytes out.new ≡ string_bytes out.old ++ spec.chained (map spec.term_of terms.now)) }
{
    let mut is_first = true;
    for term in terms {
        put_sign(out, is_first, term_sign(term.minus))?;
        put_operand(alloc, out, 4, &term.expr)?;
        is_first = false;
    }
    Ok(())
}

#[cycle(expression)]
fn put_factors(alloc: Global, out: &mut String, factors: &[SynFactor]) -> Result<(), NoMemory>
    ensures { OnOk result (string_bytes out.new ≡ string_bytes out.old ++ spec.chained (map spec.factor_of factors.now)) }
{
    let mut is_first = true;
    for factor in factors {
        put_sign(out, is_first, factor_sign(factor.how))?;
        put_operand(alloc, out, 5, &factor.expr)?;
        is_first = false;
    }
    Ok(())
}

/// Adds the expression.
#[cycle(expression)]
pub fn put_expression(alloc: Global, out: &mut String, expr: &SynExpr) -> Result<(), NoMemory>
    ensures { OnOk result (string_bytes out.new ≡ string_bytes out.old ++ spec.expression_text expr.now) }
{
    match &expr.node {
        SynNode::Int(number) => put_number(out, *number),
        SynNode::Text(text) => put_literal(alloc, out, text),
        SynNode::Bool(truth) => Ok(out.push_str(truth_text(*truth))?),
        SynNode::Field(name) => Ok(out.push_str(name.text.as_str())?),
        SynNode::Count(name) => put_count(alloc, out, &name.text),
        SynNode::Of(agg, name, field) => put_aggregate(alloc, out, *agg, &name.text, &field.text),
        SynNode::Any(parts) => put_parts(alloc, out, " || ", 1, parts.as_slice()),
        SynNode::All(parts) => put_parts(alloc, out, " && ", 2, parts.as_slice()),
        SynNode::Compare(cmp, x, y) => {
            put_operand(alloc, out, 3, x.get())?;
            out.push_str(cmp_text(*cmp))?;
            put_operand(alloc, out, 3, y.get())
        }
        SynNode::Add(terms) => put_terms(alloc, out, terms.as_slice()),
        SynNode::Mul(factors) => put_factors(alloc, out, factors.as_slice()),
        SynNode::Not(x) => {
            out.push_str("!")?;
            put_operand(alloc, out, 6, x.get())
        }
        SynNode::Neg(x) => {
            out.push_str("-")?;
            put_operand(alloc, out, 6, x.get())
        }
    }
}

//! Which kinds the operands of an expression must have.

ghost use Rattle.std.specs.Prelude.{◌≡◌};
ghost use Rattle.pattern_rules.specs.First.{first_some};
ghost use Rattle.pattern_rules.specs.Kinds as spec;
ghost use Rattle.pattern_rules.specs.declared.kind.Sort.TheVariants as sort;
ghost use Rattle.pattern_rules.specs.declared.kind.Wanted.TheVariants as want;

use crate::fields::KnownFields;
use crate::site::earlier;
use cep_event::Kind;
use cep_syntax::{Agg, File, ModKind, Opener, SynExpr, SynExprList, SynFactor, SynNode, SynTerm};

/// What an expression gives.
#[derive(Clone, Copy, Debug, PartialEq, Eq)]
pub enum Sort {
    Int,
    Text,
    Bool,
}

fn is_same_sort(sort: Sort, other: Sort) -> bool
    ensures { result ≡ spec.same_sort sort other }
{
    match (sort, other) {
        (Sort::Int, Sort::Int) | (Sort::Text, Sort::Text) | (Sort::Bool, Sort::Bool) => true,
        _ => false,
    }
}

fn field_sort(found: Option<(u16, Kind)>) -> Sort
    ensures { result ≡ spec.field_sort found }
{
    match found {
        None => Sort::Int,
        Some((_, Kind::Int)) => Sort::Int,
        Some((_, Kind::Text)) => Sort::Text,
    }
}

fn aggregate_sort(agg: Agg, held: Sort) -> Sort
    ensures { result ≡ spec.aggregate_sort agg held }
{
    match agg {
        Agg::First | Agg::Last => held,
        _ => Sort::Int,
    }
}

fn sort_of(fields: &KnownFields, node: &SynNode) -> Sort
    ensures { result ≡ spec.sort_of fields.now node.now }
{
    match node {
        SynNode::Int(_) => Sort::Int,
        SynNode::Text(_) => Sort::Text,
        SynNode::Bool(_) => Sort::Bool,
        SynNode::Field(name) => field_sort(fields.meaning(&name.text)),
        SynNode::Count(_) => Sort::Int,
        SynNode::Of(agg, _, field) => {
            aggregate_sort(*agg, field_sort(fields.meaning(&field.text)))
        }
        SynNode::Any(_) => Sort::Bool,
        SynNode::All(_) => Sort::Bool,
        SynNode::Compare(_, _, _) => Sort::Bool,
        SynNode::Add(_) => Sort::Int,
        SynNode::Mul(_) => Sort::Int,
        SynNode::Not(_) => Sort::Bool,
        SynNode::Neg(_) => Sort::Int,
    }
}

fn aggregate_clash(agg: Agg, held: Sort, place: u32) -> Option<u32>
    ensures { result ≡ spec.aggregate_clash agg held place }
{
    match agg {
        Agg::First | Agg::Last => None,
        _ => {
            if is_same_sort(held, Sort::Int) {
                None
            } else {
                Some(place)
            }
        }
    }
}

/// What may stand at a place: one kind alone, or a number or a text.
#[derive(Clone, Copy, Debug, PartialEq, Eq)]
pub enum Wanted {
    Only(Sort),
    Value,
}

fn fits(wanted: Wanted, found: Sort) -> bool
    ensures { result ≡ spec.fits wanted found }
{
    match wanted {
        Wanted::Only(sort) => is_same_sort(found, sort),
        Wanted::Value => match found {
            Sort::Bool => false,
            _ => true,
        },
    }
}

#[cycle(clash)]
fn clash_in_parts(fields: &KnownFields, wanted: Wanted, parts: &[SynExpr]) -> Option<u32>
    ensures { result ≡ first_some (spec.clash_unless fields.now wanted) parts.now }
{
    for part in parts {
        if let Some(place) = clash_unless(fields, wanted, part) {
            return Some(place);
        }
    }
    None
}

#[cycle(clash)]
fn clash_in_terms(fields: &KnownFields, terms: &[SynTerm]) -> Option<u32>
    ensures { result ≡ first_some (λ term. spec.clash_unless fields.now (want.Only sort.Int) term.expr) terms.now }
{
    for term in terms {
        if let Some(place) = clash_unless(fields, Wanted::Only(Sort::Int), &term.expr) {
            return Some(place);
        }
    }
    None
}

#[cycle(clash)]
fn clash_in_factors(fields: &KnownFields, factors: &[SynFactor]) -> Option<u32>
    ensures { result ≡ first_some (λ factor. spec.clash_unless fields.now (want.Only sort.Int) factor.expr) factors.now }
{
    for factor in factors {
        if let Some(place) = clash_unless(fields, Wanted::Only(Sort::Int), &factor.expr) {
            return Some(place);
        }
    }
    None
}

/// The first place, in the order of the text, of an operand that has not the kind that is wanted there. The expression itself is the first of them.
#[cycle(clash)]
#[tactic(auto, unfolding(crate::specs::Kinds::clash_unless))]
pub fn clash_unless(fields: &KnownFields, wanted: Wanted, expr: &SynExpr) -> Option<u32>
    ensures { result ≡ spec.clash_unless fields.now wanted expr.now }
{
    if !fits(wanted, sort_of(fields, &expr.node)) {
        return Some(expr.place);
    }
    match &expr.node {
        SynNode::Int(_) => None,
        SynNode::Text(_) => None,
        SynNode::Bool(_) => None,
        SynNode::Field(_) => None,
        SynNode::Count(_) => None,
        SynNode::Of(agg, _, field) => aggregate_clash(
            *agg,
            field_sort(fields.meaning(&field.text)),
            expr.place,
        ),
        SynNode::Any(parts) => clash_in_parts(fields, Wanted::Only(Sort::Bool), parts.as_slice()),
        SynNode::All(parts) => clash_in_parts(fields, Wanted::Only(Sort::Bool), parts.as_slice()),
        SynNode::Compare(_, left, right) => {
            let left = left.get();
            let wanted = Wanted::Only(sort_of(fields, &left.node));
            let on_left = clash_unless(fields, Wanted::Value, left);
            let on_right = clash_unless(fields, wanted, right.get());
            earlier(on_left, on_right)
        }
        SynNode::Add(terms) => clash_in_terms(fields, terms.as_slice()),
        SynNode::Mul(factors) => clash_in_factors(fields, factors.as_slice()),
        SynNode::Not(operand) => clash_unless(fields, Wanted::Only(Sort::Bool), operand.get()),
        SynNode::Neg(operand) => clash_unless(fields, Wanted::Only(Sort::Int), operand.get()),
    }
}

fn clash_in_modifier(fields: &KnownFields, what: &ModKind) -> Option<u32>
    ensures { result ≡ spec.clash_in_modifier fields.now what.now }
{
    match what {
        ModKind::Filter { expr, .. } => clash_unless(fields, Wanted::Only(Sort::Bool), expr),
        ModKind::Until(expr) => clash_unless(fields, Wanted::Only(Sort::Bool), expr),
        _ => None,
    }
}

#[tactic(auto, unfolding(crate::specs::Kinds::clash_in_opener))]
fn clash_in_opener(fields: &KnownFields, opener: &Opener) -> Option<u32>
    ensures { result ≡ spec.clash_in_opener fields.now opener.now }
{
    let mods = opener.mods.as_slice();
    for modifier in mods {
        if let Some(place) = clash_in_modifier(fields, &modifier.what) {
            return Some(place);
        }
    }
    None
}

#[tactic(auto, unfolding(crate::specs::Kinds::clash_in_openers))]
fn clash_in_openers(fields: &KnownFields, openers: &[Opener]) -> Option<u32>
    ensures { result ≡ spec.clash_in_openers fields.now openers.now }
{
    for opener in openers {
        if let Some(place) = clash_in_opener(fields, opener) {
            return Some(place);
        }
    }
    None
}

fn clash_in_select(fields: &KnownFields, shown: &Option<SynExprList>) -> Option<u32>
    ensures { result ≡ spec.clash_in_select fields.now shown.now }
{
    match shown {
        None => None,
        Some(shown) => clash_in_parts(fields, Wanted::Value, shown.as_slice()),
    }
}

/// The first place of an operand that has not the kind that its operator, its condition or `select` asks for.
#[tactic(auto, unfolding(crate::specs::Kinds::kind_clash))]
pub fn kind_clash(fields: &KnownFields, file: &File) -> Option<u32>
    ensures { result ≡ spec.kind_clash fields.now file.now }
{
    earlier(
        clash_in_openers(fields, file.openers.as_slice()),
        clash_in_select(fields, &file.select),
    )
}

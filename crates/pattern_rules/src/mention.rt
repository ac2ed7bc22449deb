//! Rules of what expressions mention.

ghost use Rattle.std.specs.Prelude.{◌≡◌};
ghost use Rattle.std.specs.Option.{option_copied};
ghost use Rattle.pattern_rules.specs.First.{first_some};
ghost use Rattle.pattern_rules.specs.Mentioned as spec;

use crate::bounds::is_negated;
use crate::fields::{KnownFields, is_known};
use crate::indexed::IndexedFile;
use crate::site::{Site, earlier};
use cep_event::Text;
use cep_syntax::{ModKind, Name, Opener, SynExpr, SynFactor, SynNode, SynTerm};

#[derive(Clone, Copy, Debug, PartialEq, Eq)]
pub enum MentionRule {
    UnknownField,
    UnknownName,
    LaterName,
    NegatedName,
}

fn may_have(file: &IndexedFile, fields: &KnownFields, of: &Option<Name>, name: &Text) -> bool
    ensures { result ≡ spec.may_have file.now.types fields.now of.now name.now }
{
    match of {
        None => is_known(fields, name),
        Some(of) => file.has_field(&of.text, name),
    }
}

/// Whether the events that a condition of this opener is asked of may have the field.
fn may_have_at(
    file: &IndexedFile,
    fields: &KnownFields,
    opener: Option<&Opener>,
    name: &Text,
) -> bool
    ensures { result ≡ spec.may_have file.now.types fields.now (spec.type_of (option_copied opener.entry)) name.now }
{
    match opener {
        None => is_known(fields, name),
        Some(opener) => may_have(file, fields, &opener.of, name),
    }
}

/// Whether the events that are taken for this opener may have the field.
fn may_have_taken(
    file: &IndexedFile,
    fields: &KnownFields,
    opener: Option<&Opener>,
    name: &Text,
) -> bool
    ensures { result ≡ spec.may_have file.now.types fields.now (spec.type_taken (option_copied opener.entry)) name.now }
{
    match opener {
        None => is_known(fields, name),
        Some(opener) => {
            if is_negated(opener.how) {
                is_known(fields, name)
            } else {
                may_have(file, fields, &opener.of, name)
            }
        }
    }
}

fn is_unknown_field(file: &IndexedFile, fields: &KnownFields, site: Site, name: &Text) -> bool
    ensures { result ≡ spec.is_unknown_field file.now fields.now site name.now }
{
    match site {
        Site::Condition(number) => { !may_have_at(file, fields, file.openers().get(number), name) }
        Site::Until(_) => !is_known(fields, name),
        Site::Select => true,
    }
}

fn bad_field(
    rule: MentionRule,
    file: &IndexedFile,
    fields: &KnownFields,
    site: Site,
    name: &Name,
) -> Option<u32>
    ensures { result ≡ spec.bad_field rule file.now fields.now site name.now }
{
    match rule {
        MentionRule::UnknownField => {
            if is_unknown_field(file, fields, site, &name.text) {
                Some(name.place)
            } else {
                None
            }
        }
        _ => None,
    }
}

fn unknown_field_of(
    file: &IndexedFile,
    fields: &KnownFields,
    name: &Name,
    field: &Name,
) -> Option<u32>
    ensures { result ≡ spec.unknown_field_of file.now fields.now name.now field.now }
{
    let number = file.opener_number(&name.text);
    if may_have_taken(file, fields, file.openers().get(number), &field.text) {
        None
    } else {
        Some(field.place)
    }
}

fn is_later(own: usize, number: usize, found: Option<&Opener>) -> bool
    ensures { result ≡ spec.is_later own number (option_copied found.entry) }
{
    match found {
        None => false,
        Some(opener) => !is_negated(opener.how) && own < number,
    }
}

fn is_later_at(site: Site, number: usize, found: Option<&Opener>) -> bool
    ensures { result ≡ spec.is_later_at site number (option_copied found.entry) }
{
    match site {
        Site::Condition(own) => is_later(own, number, found),
        Site::Until(own) => is_later(own, number, found),
        Site::Select => false,
    }
}

fn is_negated_one(found: Option<&Opener>) -> bool
    ensures { result ≡ spec.is_negated_one (option_copied found.entry) }
{
    match found {
        None => false,
        Some(opener) => is_negated(opener.how),
    }
}

fn is_bad_name(rule: MentionRule, site: Site, number: usize, found: Option<&Opener>) -> bool
    ensures { result ≡ spec.is_bad_name rule site number (option_copied found.entry) }
{
    match rule {
        MentionRule::UnknownField => false,
        MentionRule::UnknownName => found.is_none(),
        MentionRule::LaterName => is_later_at(site, number, found),
        MentionRule::NegatedName => is_negated_one(found),
    }
}

fn bad_name(rule: MentionRule, file: &IndexedFile, site: Site, name: &Name) -> Option<u32>
    ensures { result ≡ spec.bad_name rule file.now.openers site name.now }
{
    let number = file.opener_number(&name.text);
    if is_bad_name(rule, site, number, file.openers().get(number)) {
        Some(name.place)
    } else {
        None
    }
}

fn bad_aggregate(
    rule: MentionRule,
    file: &IndexedFile,
    fields: &KnownFields,
    site: Site,
    name: &Name,
    field: &Name,
) -> Option<u32>
    ensures { result ≡ spec.bad_aggregate rule file.now fields.now site name.now field.now }
{
    match rule {
        MentionRule::UnknownField => unknown_field_of(file, fields, name, field),
        _ => bad_name(rule, file, site, name),
    }
}

#[cycle(mention)]
fn bad_part(
    rule: MentionRule,
    file: &IndexedFile,
    fields: &KnownFields,
    site: Site,
    parts: &[SynExpr],
) -> Option<u32>
    ensures { result ≡ first_some (spec.bad_expression rule file.now fields.now site) parts.now }
{
    for part in parts {
        if let Some(place) = bad_expression(rule, file, fields, site, part) {
            return Some(place);
        }
    }
    None
}

#[cycle(mention)]
fn bad_term(
    rule: MentionRule,
    file: &IndexedFile,
    fields: &KnownFields,
    site: Site,
    terms: &[SynTerm],
) -> Option<u32>
    ensures { result ≡ first_some (λ term. spec.bad_expression rule file.now fields.now site term.expr) terms.now }
{
    for term in terms {
        if let Some(place) = bad_expression(rule, file, fields, site, &term.expr) {
            return Some(place);
        }
    }
    None
}

#[cycle(mention)]
fn bad_factor(
    rule: MentionRule,
    file: &IndexedFile,
    fields: &KnownFields,
    site: Site,
    factors: &[SynFactor],
) -> Option<u32>
    ensures { result ≡ first_some (λ factor. spec.bad_expression rule file.now fields.now site factor.expr) factors.now }
{
    for factor in factors {
        if let Some(place) = bad_expression(rule, file, fields, site, &factor.expr) {
            return Some(place);
        }
    }
    None
}

/// The first place, in the order of the text, where the expression mentions what the rule refuses.
#[cycle(mention)]
#[tactic(auto, unfolding(crate::specs::Mentioned::bad_expression))]
pub fn bad_expression(
    rule: MentionRule,
    file: &IndexedFile,
    fields: &KnownFields,
    site: Site,
    expr: &SynExpr,
) -> Option<u32>
    ensures { result ≡ spec.bad_expression rule file.now fields.now site expr.now }
{
    match &expr.node {
        SynNode::Int(_) => None,
        SynNode::Text(_) => None,
        SynNode::Bool(_) => None,
        SynNode::Field(name) => bad_field(rule, file, fields, site, name),
        SynNode::Count(name) => bad_name(rule, file, site, name),
        SynNode::Of(_, name, field) => bad_aggregate(rule, file, fields, site, name, field),
        SynNode::Any(parts) => bad_part(rule, file, fields, site, parts.as_slice()),
        SynNode::All(parts) => bad_part(rule, file, fields, site, parts.as_slice()),
        SynNode::Compare(_, left, right) => {
            let left = bad_expression(rule, file, fields, site, left.get());
            let right = bad_expression(rule, file, fields, site, right.get());
            earlier(left, right)
        }
        SynNode::Add(terms) => bad_term(rule, file, fields, site, terms.as_slice()),
        SynNode::Mul(factors) => bad_factor(rule, file, fields, site, factors.as_slice()),
        SynNode::Not(operand) => bad_expression(rule, file, fields, site, operand.get()),
        SynNode::Neg(operand) => bad_expression(rule, file, fields, site, operand.get()),
    }
}

fn bad_modifier(
    rule: MentionRule,
    file: &IndexedFile,
    fields: &KnownFields,
    number: usize,
    what: &ModKind,
) -> Option<u32>
    ensures { result ≡ spec.bad_modifier rule file.now fields.now number what.now }
{
    match what {
        ModKind::Filter { expr, .. } => {
            bad_expression(rule, file, fields, Site::Condition(number), expr)
        }
        ModKind::Until(expr) => bad_expression(rule, file, fields, Site::Until(number), expr),
        _ => None,
    }
}

#[tactic(auto, unfolding(crate::specs::Mentioned::bad_opener))]
fn bad_opener(
    rule: MentionRule,
    file: &IndexedFile,
    fields: &KnownFields,
    number: usize,
    opener: &Opener,
) -> Option<u32>
    ensures { result ≡ spec.bad_opener rule file.now fields.now number opener.now }
{
    let mods = opener.mods.as_slice();
    for modifier in mods {
        if let Some(place) = bad_modifier(rule, file, fields, number, &modifier.what) {
            return Some(place);
        }
    }
    None
}

#[tactic(auto, unfolding(crate::specs::Mentioned::bad_conditions))]
fn bad_conditions(rule: MentionRule, file: &IndexedFile, fields: &KnownFields) -> Option<u32>
    ensures { result ≡ spec.bad_conditions rule file.now fields.now }
{
    let openers = file.openers();
    for (number, opener) in openers.iter().enumerate() {
        if let Some(place) = bad_opener(rule, file, fields, number, opener) {
            return Some(place);
        }
    }
    None
}

#[tactic(auto, unfolding(crate::specs::Mentioned::bad_select))]
fn bad_select(rule: MentionRule, file: &IndexedFile, fields: &KnownFields) -> Option<u32>
    ensures { result ≡ spec.bad_select rule file.now fields.now }
{
    match &file.file().select {
        None => None,
        Some(shown) => bad_part(rule, file, fields, Site::Select, shown.as_slice()),
    }
}

/// The first place where an expression of the file mentions what the rule refuses.
#[tactic(auto, unfolding(crate::specs::Mentioned::broken_by_mention))]
pub fn broken_by_mention(rule: MentionRule, file: &IndexedFile, fields: &KnownFields) -> Option<u32>
    ensures { result ≡ spec.broken_by_mention rule file.now fields.now }
{
    earlier(
        bad_conditions(rule, file, fields),
        bad_select(rule, file, fields),
    )
}

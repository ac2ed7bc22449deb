//! Whether two files are the same but for their places.

ghost use Rattle.std.specs.Prelude.{◌≡◌, ◌↔◌, IsTrue, map, option_map};
ghost use Rattle.cep_print.specs.Same.{unplaced_name, unplaced};
ghost use Rattle.cep_print.specs.SameFile as spec;

use crate::same_expression::{same_expression, same_name};
use cep_syntax::{
    FieldDecl, File, ModKind, Modifier, Name, Opener, PlacedNumber, SkipDecl, SynExpr, SynExprList,
    TypeDecl,
};

fn same_field(one: &FieldDecl, other: &FieldDecl) -> bool
    ensures { IsTrue result ↔ (spec.unplaced_field one.now ≡ spec.unplaced_field other.now) }
{
    one.kind == other.kind && same_name(&one.name, &other.name)
}

fn same_fields(fields: &[FieldDecl], others: &[FieldDecl]) -> bool
    ensures { IsTrue result ↔ (map spec.unplaced_field fields.now ≡ map spec.unplaced_field others.now) }
{
    if fields.len() != others.len() {
        return false;
    }
    for place in 0..fields.len() {
        if !same_field(&fields[place], &others[place]) {
            return false;
        }
    }
    true
}

fn same_type(one: &TypeDecl, other: &TypeDecl) -> bool
    ensures { IsTrue result ↔ (spec.unplaced_type one.now ≡ spec.unplaced_type other.now) }
{
    same_name(&one.name, &other.name) && same_fields(one.fields.as_slice(), other.fields.as_slice())
}

fn same_types(types: &[TypeDecl], others: &[TypeDecl]) -> bool
    ensures { IsTrue result ↔ (map spec.unplaced_type types.now ≡ map spec.unplaced_type others.now) }
{
    if types.len() != others.len() {
        return false;
    }
    for place in 0..types.len() {
        if !same_type(&types[place], &others[place]) {
            return false;
        }
    }
    true
}

fn same_kind(one: &ModKind, other: &ModKind) -> bool
    ensures { IsTrue result ↔ (spec.unplaced_kind one.now ≡ spec.unplaced_kind other.now) }
{
    match (one, other) {
        (
            ModKind::Filter { join, expr },
            ModKind::Filter {
                join: how,
                expr: other,
            },
        ) => { *join == *how && same_expression(expr, other) }
        (ModKind::Until(expr), ModKind::Until(other)) => same_expression(expr, other),
        (
            ModKind::Times { from, to },
            ModKind::Times {
                from: first,
                to: last,
            },
        ) => { *from == *first && *to == *last }
        (ModKind::TimesOrMore(from), ModKind::TimesOrMore(other)) => *from == *other,
        (ModKind::OneOrMore, ModKind::OneOrMore) => true,
        (ModKind::Optional, ModKind::Optional) => true,
        (ModKind::Consecutive, ModKind::Consecutive) => true,
        (ModKind::AllowCombinations, ModKind::AllowCombinations) => true,
        _ => false,
    }
}

fn same_modifier(one: &Modifier, other: &Modifier) -> bool
    ensures { IsTrue result ↔ (spec.unplaced_modifier one.now ≡ spec.unplaced_modifier other.now) }
{
    same_kind(&one.what, &other.what)
}

fn same_modifiers(mods: &[Modifier], others: &[Modifier]) -> bool
    ensures { IsTrue result ↔ (map spec.unplaced_modifier mods.now ≡ map spec.unplaced_modifier others.now) }
{
    if mods.len() != others.len() {
        return false;
    }
    for place in 0..mods.len() {
        if !same_modifier(&mods[place], &others[place]) {
            return false;
        }
    }
    true
}

fn same_of(one: &Option<Name>, other: &Option<Name>) -> bool
    ensures { IsTrue result ↔ (option_map unplaced_name one.now ≡ option_map unplaced_name other.now) }
{
    match (one, other) {
        (None, None) => true,
        (Some(name), Some(other)) => same_name(name, other),
        _ => false,
    }
}

fn all_four(first: bool, second: bool, third: bool, fourth: bool) -> bool
    ensures { IsTrue result ↔ (IsTrue first × IsTrue second × IsTrue third × IsTrue fourth) }
{
    first && second && third && fourth
}

fn same_stage(one: &Opener, other: &Opener) -> bool
    ensures { IsTrue result ↔ (spec.unplaced_stage one.now ≡ spec.unplaced_stage other.now) }
{
    all_four(
        one.how == other.how,
        same_name(&one.name, &other.name),
        same_of(&one.of, &other.of),
        same_modifiers(one.mods.as_slice(), other.mods.as_slice()),
    )
}

fn same_stages(stages: &[Opener], others: &[Opener]) -> bool
    ensures { IsTrue result ↔ (map spec.unplaced_stage stages.now ≡ map spec.unplaced_stage others.now) }
{
    if stages.len() != others.len() {
        return false;
    }
    for place in 0..stages.len() {
        if !same_stage(&stages[place], &others[place]) {
            return false;
        }
    }
    true
}

fn same_limit(one: &Option<PlacedNumber>, other: &Option<PlacedNumber>) -> bool
    ensures { IsTrue result ↔ (option_map spec.unplaced_limit one.now ≡ option_map spec.unplaced_limit other.now) }
{
    match (one, other) {
        (None, None) => true,
        (Some(limit), Some(other)) => limit.value == other.value,
        _ => false,
    }
}

fn same_skip_kind(one: &SkipDecl, other: &SkipDecl) -> bool
    ensures { IsTrue result ↔ (spec.unplaced_skip one.now ≡ spec.unplaced_skip other.now) }
{
    match (one, other) {
        (SkipDecl::No, SkipDecl::No) => true,
        (SkipDecl::ToNext, SkipDecl::ToNext) => true,
        (SkipDecl::PastLast, SkipDecl::PastLast) => true,
        (SkipDecl::ToFirst(name), SkipDecl::ToFirst(other)) => same_name(name, other),
        (SkipDecl::ToLast(name), SkipDecl::ToLast(other)) => same_name(name, other),
        _ => false,
    }
}

fn same_skip(one: &Option<SkipDecl>, other: &Option<SkipDecl>) -> bool
    ensures { IsTrue result ↔ (option_map spec.unplaced_skip one.now ≡ option_map spec.unplaced_skip other.now) }
{
    match (one, other) {
        (None, None) => true,
        (Some(what), Some(other)) => same_skip_kind(what, other),
        _ => false,
    }
}

fn same_shown(shown: &[SynExpr], others: &[SynExpr]) -> bool
    ensures { IsTrue result ↔ (map unplaced shown.now ≡ map unplaced others.now) }
{
    if shown.len() != others.len() {
        return false;
    }
    for place in 0..shown.len() {
        if !same_expression(&shown[place], &others[place]) {
            return false;
        }
    }
    true
}

fn same_select(one: &Option<SynExprList>, other: &Option<SynExprList>) -> bool
    ensures { IsTrue result ↔ (option_map (map unplaced) one.now ≡ option_map (map unplaced) other.now) }
{
    match (one, other) {
        (None, None) => true,
        (Some(shown), Some(other)) => same_shown(shown.as_slice(), other.as_slice()),
        _ => false,
    }
}

/// Whether the two files are equal but for their places. It takes no memory.
pub fn same_file(one: &File, other: &File) -> bool
    ensures { IsTrue result ↔ spec.IsSameFile one.now other.now }
{
    let is_same_pattern = same_stages(one.openers.as_slice(), other.openers.as_slice())
        && same_limit(&one.within, &other.within)
        && same_limit(&one.within_gap, &other.within_gap);
    all_four(
        same_types(one.types.as_slice(), other.types.as_slice()),
        is_same_pattern,
        same_skip(&one.skip, &other.skip),
        same_select(&one.select, &other.select),
    )
}

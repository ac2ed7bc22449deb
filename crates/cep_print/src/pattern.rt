//! The pattern, on one line.

ghost use Rattle.std.specs.Prelude.{◌≡◌, ◌++◌, string_bytes, map, OnOk};
ghost use Rattle.cep_print.specs.Expression.{chained};
ghost use Rattle.cep_print.specs.File as spec;

use crate::expression::{put_expression, put_number, put_sign};
use crate::literal::put_literal;
use cep_event::{NoMemory, Text};
use cep_syntax::{Join, ModKind, Modifier, Name, OpenKind, Opener, PlacedNumber, SynExpr};
use std::alloc::Global;

fn opening_text(how: OpenKind) -> &'static str
    ensures { result.now ≡ spec.opening_text how }
{
    match how {
        OpenKind::Begin => "begin(",
        OpenKind::Next => "next(",
        OpenKind::FollowedBy => "followedBy(",
        OpenKind::FollowedByAny => "followedByAny(",
        OpenKind::NotNext => "notNext(",
        OpenKind::NotFollowedBy => "notFollowedBy(",
    }
}

fn put_of(out: &mut String, of: &Option<Name>) -> Result<(), NoMemory>
    ensures { OnOk result (string_bytes out.new ≡ string_bytes out.old ++ spec.of_text of.now) }
{
    match of {
        None => Ok(()),
        Some(name) => {
            out.push_str(".of(")?;
            out.push_str(name.text.as_str())?;
            out.push_str(")")?;
            Ok(())
        }
    }
}

fn join_text(join: Join) -> &'static str
    ensures { result.now ≡ spec.join_text join }
{
    match join {
        Join::Both => ".where(",
        Join::Either => ".or(",
    }
}

fn put_condition(
    alloc: Global,
    out: &mut String,
    opening: &str,
    expr: &SynExpr,
) -> Result<(), NoMemory>
    ensures { OnOk result (string_bytes out.new ≡ string_bytes out.old ++ spec.condition_text opening.now expr.now) }
{
    out.push_str(opening)?;
    put_expression(alloc, out, expr)?;
    out.push_str(")")?;
    Ok(())
}

fn put_second(out: &mut String, to: Option<u64>) -> Result<(), NoMemory>
    ensures { OnOk result (string_bytes out.new ≡ string_bytes out.old ++ spec.second_text to) }
{
    match to {
        None => Ok(()),
        Some(number) => {
            out.push_str(", ")?;
            put_number(out, number)
        }
    }
}

fn put_times(out: &mut String, from: u64, to: Option<u64>) -> Result<(), NoMemory>
    ensures { OnOk result (string_bytes out.new ≡ string_bytes out.old ++ spec.times_text from to) }
{
    out.push_str(".times(")?;
    put_number(out, from)?;
    put_second(out, to)?;
    out.push_str(")")?;
    Ok(())
}

fn put_times_or_more(out: &mut String, from: u64) -> Result<(), NoMemory>
    ensures { OnOk result (string_bytes out.new ≡ string_bytes out.old ++ spec.times_or_more_text from) }
{
    out.push_str(".timesOrMore(")?;
    put_number(out, from)?;
    out.push_str(")")?;
    Ok(())
}

fn put_modifier(alloc: Global, out: &mut String, what: &ModKind) -> Result<(), NoMemory>
    ensures { OnOk result (string_bytes out.new ≡ string_bytes out.old ++ spec.modifier_text what.now) }
{
    match what {
        ModKind::Filter { join, expr } => put_condition(alloc, out, join_text(*join), expr),
        ModKind::Until(expr) => put_condition(alloc, out, ".until(", expr),
        ModKind::Times { from, to } => put_times(out, *from, *to),
        ModKind::TimesOrMore(from) => put_times_or_more(out, *from),
        ModKind::OneOrMore => Ok(out.push_str(".oneOrMore()")?),
        ModKind::Optional => Ok(out.push_str(".optional()")?),
        ModKind::Consecutive => Ok(out.push_str(".consecutive()")?),
        ModKind::AllowCombinations => Ok(out.push_str(".allowCombinations()")?),
    }
}

fn put_modifiers(alloc: Global, out: &mut String, mods: &[Modifier]) -> Result<(), NoMemory>
    ensures { OnOk result (string_bytes out.new ≡ string_bytes out.old ++ spec.modifiers_text mods.now) }
{
    for modifier in mods {
        put_modifier(alloc, out, &modifier.what)?;
    }
    Ok(())
}

fn put_opening(alloc: Global, out: &mut String, how: OpenKind, name: &Text) -> Result<(), NoMemory>
    ensures { OnOk result (string_bytes out.new ≡ string_bytes out.old ++ spec.opened_text how name.now) }
{
    out.push_str(opening_text(how))?;
    put_literal(alloc, out, name)?;
    out.push_str(")")?;
    Ok(())
}

fn put_stage(alloc: Global, out: &mut String, stage: &Opener) -> Result<(), NoMemory>
    ensures { OnOk result (string_bytes out.new ≡ string_bytes out.old ++ spec.stage_text stage.now) }
{
    put_opening(alloc, out, stage.how, &stage.name.text)?;
    put_of(out, &stage.of)?;
    put_modifiers(alloc, out, stage.mods.as_slice())
}

fn put_stages(alloc: Global, out: &mut String, stages: &[Opener]) -> Result<(), NoMemory>
    ensures { OnOk result (string_bytes out.new ≡ string_bytes out.old ++ chained (map spec.stage_part stages.now)) }
{
    let mut is_first = true;
    for stage in stages {
        put_sign(out, is_first, ".")?;
        put_stage(alloc, out, stage)?;
        is_first = false;
    }
    Ok(())
}

fn put_limit(out: &mut String, opening: &str, limit: &Option<PlacedNumber>) -> Result<(), NoMemory>
    ensures { OnOk result (string_bytes out.new ≡ string_bytes out.old ++ spec.limit_text opening.now limit.now) }
{
    match limit {
        None => Ok(()),
        Some(limit) => {
            out.push_str(opening)?;
            put_number(out, limit.value)?;
            out.push_str(")")?;
            Ok(())
        }
    }
}

fn put_limits(
    out: &mut String,
    within: &Option<PlacedNumber>,
    gap: &Option<PlacedNumber>,
) -> Result<(), NoMemory>
    ensures { OnOk result (string_bytes out.new ≡ string_bytes out.old ++ spec.limits_text within.now gap.now) }
{
    put_limit(out, ".within(", within)?;
    put_limit(out, ".withinGap(", gap)
}

/// Adds the pattern and its line end.
pub fn put_pattern(
    alloc: Global,
    out: &mut String,
    stages: &[Opener],
    within: &Option<PlacedNumber>,
    gap: &Option<PlacedNumber>,
) -> Result<(), NoMemory>
    ensures { OnOk result (string_bytes out.new ≡ string_bytes out.old ++ spec.pattern_text stages.now within.now gap.now) }
{
    out.push_str("pattern ")?;
    put_stages(alloc, out, stages)?;
    put_limits(out, within, gap)?;
    out.push_str(";\n")?;
    Ok(())
}

//! The plan of a file.

ghost use Rattle.std.specs.Prelude.{◌≡◌, ◌≤◌, length, map, IfOk};
ghost use Rattle.pattern_check.specs.Plan as spec;
ghost use Rattle.pattern_check.specs.Translated as translated;

use crate::expression::expr_of;
use crate::number::stages_before;
use crate::stage::{negations_of, stages_of};
use crate::types::types_of;
use cep_event::NoMemory;
use cep_plan::{ExprList, Plan, Skip};
use cep_syntax::{File, Opener, PlacedNumber, SkipDecl, SynExpr, SynExprList};
use pattern_rules::KnownFields;
use std::alloc::Global;

fn limit_of(limit: Option<PlacedNumber>) -> Option<u64>
    ensures { result ≡ spec.limit_of limit }
{
    match limit {
        None => None,
        Some(number) => Some(number.value),
    }
}

fn skip_of(openers: &[Opener], skip: &Option<SkipDecl>) -> Skip
    requires { length openers.now ≤ 64 }
    ensures { result ≡ spec.skip_of openers.now skip.now }
{
    match skip {
        Some(SkipDecl::ToNext) => Skip::ToNext,
        Some(SkipDecl::PastLast) => Skip::PastLast,
        Some(SkipDecl::ToFirst(name)) => Skip::ToFirst(stages_before(openers, &name.text)),
        Some(SkipDecl::ToLast(name)) => Skip::ToLast(stages_before(openers, &name.text)),
        _ => Skip::No,
    }
}

fn shown_of(
    alloc: Global,
    fields: &KnownFields,
    openers: &[Opener],
    shown: &[SynExpr],
) -> Result<ExprList, NoMemory>
    requires { length openers.now ≤ 64 }
    ensures { IfOk result (λ made. made ≡ map (translated.expr_of fields.now openers.now) shown.now) }
{
    let mut made = ExprList::new(alloc);
    for expr in shown {
        let expr = expr_of(alloc, fields, openers, expr)?;
        made.push(expr)?;
    }
    Ok(made)
}

fn select_of(
    alloc: Global,
    fields: &KnownFields,
    openers: &[Opener],
    select: &Option<SynExprList>,
) -> Result<Option<ExprList>, NoMemory>
    requires { length openers.now ≤ 64 }
    ensures { IfOk result (λ made. made ≡ spec.select_of fields.now openers.now select.now) }
{
    match select {
        None => Ok(None),
        Some(shown) => {
            let shown = shown_of(alloc, fields, openers, shown.as_slice())?;
            Ok(Some(shown))
        }
    }
}

/// The plan that the file stands for. The fields are those that the file knows.
pub fn plan_with(alloc: Global, fields: &KnownFields, file: &File) -> Result<Plan, NoMemory>
    requires few { length file.now.openers ≤ 64 }
    requires few_types { length file.now.types ≤ 65535 }
    ensures { IfOk result (λ made. made ≡ spec.plan_with fields.now file.now) }
{
    let openers = file.openers.as_slice();
    let types = types_of(alloc, fields, file.types.as_slice())?;
    let stages = stages_of(alloc, fields, file)?;
    let negations = negations_of(alloc, fields, file)?;
    let select = select_of(alloc, fields, openers, &file.select)?;
    Ok(Plan {
        types,
        stages,
        negations,
        within: limit_of(file.within),
        within_gap: limit_of(file.within_gap),
        by: None,
        skip: skip_of(openers, &file.skip),
        select,
    })
}

//! Conditions of a plan.

ghost use Rattle.std.specs.Prelude.{◌≡◌, ◌≤◌, ◌++◌, length, IfOk, OnOk};
ghost use Rattle.pattern_check.specs.Conditions as spec;

use crate::expression::expr_of;
use crate::translated::join_of;
use cep_event::NoMemory;
use cep_plan::{Cond, Join, Part, PartList};
use cep_syntax::{ModKind, Modifier, Opener, SynExpr};
use pattern_rules::KnownFields;
use std::alloc::Global;

/// Adds the part that the modifier is, if it is `where` or `or`.
fn add_part(
    alloc: Global,
    fields: &KnownFields,
    openers: &[Opener],
    parts: &mut PartList,
    what: &ModKind,
) -> Result<(), NoMemory>
    requires { length openers.now ≤ 64 }
    ensures { OnOk result (parts.new ≡ parts.old ++ spec.parts_of fields.now openers.now what.now) }
{
    match what {
        ModKind::Filter { join, expr } => {
            let expr = expr_of(alloc, fields, openers, expr)?;
            parts.push(Part {
                join: join_of(*join),
                expr,
            })
        }
        _ => Ok(()),
    }
}

/// The condition that `where` and `or` make of a stage.
#[tactic(auto, unfolding(crate::specs::Conditions::cond_of))]
pub fn cond_of(
    alloc: Global,
    fields: &KnownFields,
    openers: &[Opener],
    mods: &[Modifier],
) -> Result<Cond, NoMemory>
    requires { length openers.now ≤ 64 }
    ensures { IfOk result (λ made. made ≡ spec.cond_of fields.now openers.now mods.now) }
{
    let mut parts = PartList::new(alloc);
    for modifier in mods {
        add_part(alloc, fields, openers, &mut parts, &modifier.what)?;
    }
    Ok(Cond { parts })
}

/// A condition of one part.
fn cond_of_one(
    alloc: Global,
    fields: &KnownFields,
    openers: &[Opener],
    expr: &SynExpr,
) -> Result<Cond, NoMemory>
    requires { length openers.now ≤ 64 }
    ensures { IfOk result (λ made. made ≡ spec.cond_of_one fields.now openers.now expr.now) }
{
    let expr = expr_of(alloc, fields, openers, expr)?;
    let mut parts = PartList::new(alloc);
    parts.push(Part {
        join: Join::Both,
        expr,
    })?;
    Ok(Cond { parts })
}

fn until_in(
    alloc: Global,
    fields: &KnownFields,
    openers: &[Opener],
    what: &ModKind,
) -> Result<Option<Cond>, NoMemory>
    requires { length openers.now ≤ 64 }
    ensures { IfOk result (λ made. made ≡ spec.until_in fields.now openers.now what.now) }
{
    match what {
        ModKind::Until(expr) => {
            let cond = cond_of_one(alloc, fields, openers, expr)?;
            Ok(Some(cond))
        }
        _ => Ok(None),
    }
}

/// What ends the loop of a stage, if the pattern says it.
#[tactic(auto, unfolding(crate::specs::Conditions::until_of))]
pub fn until_of(
    alloc: Global,
    fields: &KnownFields,
    openers: &[Opener],
    mods: &[Modifier],
) -> Result<Option<Cond>, NoMemory>
    requires { length openers.now ≤ 64 }
    ensures { IfOk result (λ made. made ≡ spec.until_of fields.now openers.now mods.now) }
{
    for modifier in mods {
        if let Some(cond) = until_in(alloc, fields, openers, &modifier.what)? {
            return Ok(Some(cond));
        }
    }
    Ok(None)
}

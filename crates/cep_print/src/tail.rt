//! The skip and the select, each on a line.

ghost use Rattle.std.specs.Prelude.{◌≡◌, ◌++◌, string_bytes, map, OnOk};
ghost use Rattle.cep_print.specs.Expression.{chained};
ghost use Rattle.cep_print.specs.File as spec;

use crate::expression::{put_expression, put_sign};
use crate::literal::put_literal;
use cep_event::{NoMemory, Text};
use cep_syntax::{SkipDecl, SynExpr, SynExprList};
use std::alloc::Global;

fn put_named(alloc: Global, out: &mut String, opening: &str, name: &Text) -> Result<(), NoMemory>
    ensures { OnOk result (string_bytes out.new ≡ string_bytes out.old ++ spec.named_text opening.now name.now) }
{
    out.push_str(opening)?;
    put_literal(alloc, out, name)?;
    out.push_str(")")?;
    Ok(())
}

fn put_skip_kind(alloc: Global, out: &mut String, what: &SkipDecl) -> Result<(), NoMemory>
    ensures { OnOk result (string_bytes out.new ≡ string_bytes out.old ++ spec.skip_kind_text what.now) }
{
    match what {
        SkipDecl::No => Ok(out.push_str("none")?),
        SkipDecl::ToNext => Ok(out.push_str("to_next")?),
        SkipDecl::PastLast => Ok(out.push_str("past_last")?),
        SkipDecl::ToFirst(name) => put_named(alloc, out, "to_first(", &name.text),
        SkipDecl::ToLast(name) => put_named(alloc, out, "to_last(", &name.text),
    }
}

/// Adds the skip and its line end, where there is one.
pub fn put_skip(alloc: Global, out: &mut String, skip: &Option<SkipDecl>) -> Result<(), NoMemory>
    ensures { OnOk result (string_bytes out.new ≡ string_bytes out.old ++ spec.skip_text skip.now) }
{
    match skip {
        None => Ok(()),
        Some(what) => {
            out.push_str("skip ")?;
            put_skip_kind(alloc, out, what)?;
            out.push_str(";\n")?;
            Ok(())
        }
    }
}

fn put_shown(alloc: Global, out: &mut String, shown: &[SynExpr]) -> Result<(), NoMemory>
    ensures { OnOk result (string_bytes out.new ≡ string_bytes out.old ++ chained (map spec.shown_part shown.now)) }
{
    let mut is_first = true;
    for expr in shown {
        put_sign(out, is_first, ", ")?;
        put_expression(alloc, out, expr)?;
        is_first = false;
    }
    Ok(())
}

/// Adds the select and its line end, where there is one.
pub fn put_select(
    alloc: Global,
    out: &mut String,
    select: &Option<SynExprList>,
) -> Result<(), NoMemory>
    ensures { OnOk result (string_bytes out.new ≡ string_bytes out.old ++ spec.select_text select.now) }
{
    match select {
        None => Ok(()),
        Some(shown) => {
            out.push_str("select ")?;
            put_shown(alloc, out, shown.as_slice())?;
            out.push_str(";\n")?;
            Ok(())
        }
    }
}

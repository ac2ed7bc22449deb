//! The skip and the select.

ghost use Rattle.std.specs.Prelude.{◌≡◌, ◌∷◌, IfOk};
ghost use Rattle.cep_reading.specs.Reading.{Reads};
ghost use Rattle.cep_syntax.specs.Reader as spec;

use crate::file::{SkipDecl, SynExprList};
use cep_event::NoMemory;
use cep_expression::{SynExpr, expression};
use cep_reading::{Cursor, Name, Stop, stage_name};
use std::alloc::Global;

/// A stage's name in parentheses.
#[tactic(auto, unfolding(crate::specs::Reader::named))]
fn named(alloc: Global, cursor: &mut Cursor<'_>) -> Result<Name, Stop>
    ensures { Reads (spec.named cursor.old) result cursor.new }
{
    cursor.expect_symbol("(")?;
    let name = stage_name(alloc, cursor)?;
    cursor.expect_symbol(")")?;
    Ok(name)
}

#[tactic(auto, unfolding(crate::specs::Reader::skip_name))]
fn skip_name(alloc: Global, cursor: &mut Cursor<'_>) -> Result<SkipDecl, Stop>
    ensures { Reads (spec.skip_name cursor.old) result cursor.new }
{
    if cursor.sees_word("to_first") {
        cursor.expect_word("to_first")?;
        let name = named(alloc, cursor)?;
        Ok(SkipDecl::ToFirst(name))
    } else {
        cursor.expect_word("to_last")?;
        let name = named(alloc, cursor)?;
        Ok(SkipDecl::ToLast(name))
    }
}

#[tactic(auto, unfolding(crate::specs::Reader::skip_kind))]
fn skip_kind(alloc: Global, cursor: &mut Cursor<'_>) -> Result<SkipDecl, Stop>
    ensures { Reads (spec.skip_kind cursor.old) result cursor.new }
{
    if cursor.sees_word("none") {
        cursor.expect_word("none")?;
        Ok(SkipDecl::No)
    } else if cursor.sees_word("to_next") {
        cursor.expect_word("to_next")?;
        Ok(SkipDecl::ToNext)
    } else if cursor.sees_word("past_last") {
        cursor.expect_word("past_last")?;
        Ok(SkipDecl::PastLast)
    } else {
        skip_name(alloc, cursor)
    }
}

#[tactic(auto, unfolding(crate::specs::Reader::skip))]
fn skip(alloc: Global, cursor: &mut Cursor<'_>) -> Result<SkipDecl, Stop>
    ensures { Reads (spec.skip cursor.old) result cursor.new }
{
    cursor.expect_word("skip")?;
    let what = skip_kind(alloc, cursor)?;
    cursor.expect_symbol(";")?;
    Ok(what)
}

#[tactic(auto, unfolding(crate::specs::Reader::maybe_skip))]
pub fn maybe_skip(alloc: Global, cursor: &mut Cursor<'_>) -> Result<Option<SkipDecl>, Stop>
    ensures { Reads (spec.maybe_skip cursor.old) result cursor.new }
{
    if !cursor.sees_word("skip") {
        return Ok(None);
    }
    let what = skip(alloc, cursor)?;
    Ok(Some(what))
}

#[tactic(auto, unfolding(crate::specs::Reader::next_shown))]
fn next_shown(alloc: Global, cursor: &mut Cursor<'_>, room: usize) -> Result<SynExpr, Stop>
    ensures { Reads (spec.next_shown room cursor.old) result cursor.new }
{
    cursor.expect_symbol(",")?;
    expression(alloc, cursor, room)
}

fn more_shown(alloc: Global, cursor: &mut Cursor<'_>, room: usize) -> Result<SynExprList, Stop>
    ensures { Reads (spec.more_shown room cursor.old) result cursor.new }
{
    let mut found = SynExprList::new(alloc);
    for _turn in 0..room {
        if !cursor.sees_symbol(",") {
            return Ok(found);
        }
        found.push(next_shown(alloc, cursor, room)?)?;
    }
    Err(Stop::Spent)
}

fn with_first(alloc: Global, first: SynExpr, more: SynExprList) -> Result<SynExprList, NoMemory>
    ensures { IfOk result (λ all. all ≡ first ∷ more) }
{
    let mut all = Vec::new(alloc);
    all.push(first)?;
    let mut more = more.into_vec();
    all.append(&mut more)?;
    Ok(SynExprList::from_vec(all))
}

#[tactic(auto, unfolding(crate::specs::Reader::select))]
fn select(alloc: Global, cursor: &mut Cursor<'_>, room: usize) -> Result<SynExprList, Stop>
    ensures { Reads (spec.select room cursor.old) result cursor.new }
{
    cursor.expect_word("select")?;
    let first = expression(alloc, cursor, room)?;
    let more = more_shown(alloc, cursor, room)?;
    cursor.expect_symbol(";")?;
    Ok(with_first(alloc, first, more)?)
}

#[tactic(auto, unfolding(crate::specs::Reader::maybe_select))]
pub fn maybe_select(
    alloc: Global,
    cursor: &mut Cursor<'_>,
    room: usize,
) -> Result<Option<SynExprList>, Stop>
    ensures { Reads (spec.maybe_select room cursor.old) result cursor.new }
{
    if !cursor.sees_word("select") {
        return Ok(None);
    }
    let shown = select(alloc, cursor, room)?;
    Ok(Some(shown))
}

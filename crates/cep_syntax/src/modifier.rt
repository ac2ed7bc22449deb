//! Modifiers of stages.

ghost use Rattle.std.specs.Prelude.{◌≡◌};
ghost use Rattle.cep_reading.specs.Reading.{Reads};
ghost use Rattle.cep_syntax.specs.Reader as spec;

use crate::file::{Join, ModKind, Modifier};
use cep_expression::{SynExpr, expression};
use cep_reading::{Cursor, Stop, number};
use std::alloc::Global;

#[tactic(auto, unfolding(crate::specs::Reader::upper))]
fn upper(cursor: &mut Cursor<'_>) -> Result<Option<u64>, Stop>
    ensures { Reads (spec.upper cursor.old) result cursor.new }
{
    if !cursor.sees_symbol(",") {
        return Ok(None);
    }
    cursor.expect_symbol(",")?;
    let value = number(cursor)?;
    Ok(Some(value))
}

#[tactic(auto, unfolding(crate::specs::Reader::times))]
fn times(cursor: &mut Cursor<'_>) -> Result<ModKind, Stop>
    ensures { Reads (spec.times cursor.old) result cursor.new }
{
    cursor.expect_symbol("(")?;
    let from = number(cursor)?;
    let to = upper(cursor)?;
    cursor.expect_symbol(")")?;
    Ok(ModKind::Times { from, to })
}

#[tactic(auto, unfolding(crate::specs::Reader::times_or_more))]
fn times_or_more(cursor: &mut Cursor<'_>) -> Result<ModKind, Stop>
    ensures { Reads (spec.times_or_more cursor.old) result cursor.new }
{
    cursor.expect_symbol("(")?;
    let from = number(cursor)?;
    cursor.expect_symbol(")")?;
    Ok(ModKind::TimesOrMore(from))
}

/// Empty parentheses.
#[tactic(auto, unfolding(crate::specs::Reader::bare))]
fn bare(cursor: &mut Cursor<'_>, what: ModKind) -> Result<ModKind, Stop>
    ensures { Reads (spec.bare what cursor.old) result cursor.new }
{
    cursor.expect_symbol("(")?;
    cursor.expect_symbol(")")?;
    Ok(what)
}

#[tactic(auto, unfolding(crate::specs::Reader::condition))]
fn condition(alloc: Global, cursor: &mut Cursor<'_>, room: usize) -> Result<SynExpr, Stop>
    ensures { Reads (spec.condition room cursor.old) result cursor.new }
{
    cursor.expect_symbol("(")?;
    let expr = expression(alloc, cursor, room)?;
    cursor.expect_symbol(")")?;
    Ok(expr)
}

#[tactic(auto, unfolding(crate::specs::Reader::until_kind))]
fn until_kind(alloc: Global, cursor: &mut Cursor<'_>, room: usize) -> Result<ModKind, Stop>
    ensures { Reads (spec.until_kind room cursor.old) result cursor.new }
{
    cursor.expect_word("until")?;
    let expr = condition(alloc, cursor, room)?;
    Ok(ModKind::Until(expr))
}

#[tactic(auto, unfolding(crate::specs::Reader::mode_kind))]
fn mode_kind(alloc: Global, cursor: &mut Cursor<'_>, room: usize) -> Result<ModKind, Stop>
    ensures { Reads (spec.mode_kind room cursor.old) result cursor.new }
{
    if cursor.sees_word("consecutive") {
        cursor.expect_word("consecutive")?;
        bare(cursor, ModKind::Consecutive)
    } else if cursor.sees_word("allowCombinations") {
        cursor.expect_word("allowCombinations")?;
        bare(cursor, ModKind::AllowCombinations)
    } else {
        until_kind(alloc, cursor, room)
    }
}

#[tactic(auto, unfolding(crate::specs::Reader::bare_kind))]
fn bare_kind(alloc: Global, cursor: &mut Cursor<'_>, room: usize) -> Result<ModKind, Stop>
    ensures { Reads (spec.bare_kind room cursor.old) result cursor.new }
{
    if cursor.sees_word("oneOrMore") {
        cursor.expect_word("oneOrMore")?;
        bare(cursor, ModKind::OneOrMore)
    } else if cursor.sees_word("optional") {
        cursor.expect_word("optional")?;
        bare(cursor, ModKind::Optional)
    } else {
        mode_kind(alloc, cursor, room)
    }
}

#[tactic(auto, unfolding(crate::specs::Reader::counted_kind))]
fn counted_kind(alloc: Global, cursor: &mut Cursor<'_>, room: usize) -> Result<ModKind, Stop>
    ensures { Reads (spec.counted_kind room cursor.old) result cursor.new }
{
    if cursor.sees_word("times") {
        cursor.expect_word("times")?;
        times(cursor)
    } else if cursor.sees_word("timesOrMore") {
        cursor.expect_word("timesOrMore")?;
        times_or_more(cursor)
    } else {
        bare_kind(alloc, cursor, room)
    }
}

/// The first word decides.
#[tactic(auto, unfolding(crate::specs::Reader::modifier_kind))]
fn modifier_kind(alloc: Global, cursor: &mut Cursor<'_>, room: usize) -> Result<ModKind, Stop>
    ensures { Reads (spec.modifier_kind room cursor.old) result cursor.new }
{
    if cursor.sees_word("where") {
        cursor.expect_word("where")?;
        let expr = condition(alloc, cursor, room)?;
        Ok(ModKind::Filter {
            join: Join::Both,
            expr,
        })
    } else if cursor.sees_word("or") {
        cursor.expect_word("or")?;
        let expr = condition(alloc, cursor, room)?;
        Ok(ModKind::Filter {
            join: Join::Either,
            expr,
        })
    } else {
        counted_kind(alloc, cursor, room)
    }
}

#[tactic(auto, unfolding(crate::specs::Reader::modifier))]
pub fn modifier(alloc: Global, cursor: &mut Cursor<'_>, room: usize) -> Result<Modifier, Stop>
    ensures { Reads (spec.modifier room cursor.old) result cursor.new }
{
    let place = cursor.place();
    let what = modifier_kind(alloc, cursor, room)?;
    Ok(Modifier { what, place })
}

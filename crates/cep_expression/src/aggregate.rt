//! Primaries that begin with a Word, a Number or a Literal.

ghost use Rattle.std.specs.Prelude.{◌≡◌, IfOk};
ghost use Rattle.cep_reading.specs.Reading.{Reads, one};
ghost use Rattle.cep_expression.specs.Terminal as terminal;
ghost use Rattle.cep_expression.specs.Reader as spec;

use crate::expr::{Agg, SynExpr, SynNode};
use cep_event::{NoMemory, Text};
use cep_reading::{Cursor, Name, Stop, any_word, number_value, stage_name};
use cep_token::{TokenKind, content_of};
use std::alloc::Global;

/// What an aggregate's word says of its arguments.
#[derive(Clone, Copy, Debug)]
pub enum Call {
    /// A stage.
    Count,
    /// A stage, and behind the parentheses a field.
    Edge(Agg),
    /// A field of a stage.
    Total(Agg),
}

/// The aggregate of a word, which it is where `(` comes behind.
fn call_of(word: &str) -> Option<Call>
    ensures { result ≡ terminal.call_of word.now }
{
    if word == "count" {
        Some(Call::Count)
    } else if word == "first" {
        Some(Call::Edge(Agg::First))
    } else if word == "last" {
        Some(Call::Edge(Agg::Last))
    } else if word == "sum" {
        Some(Call::Total(Agg::Sum))
    } else if word == "min" {
        Some(Call::Total(Agg::Min))
    } else if word == "max" {
        Some(Call::Total(Agg::Max))
    } else {
        None
    }
}

/// What a word says by itself.
fn plain_word(alloc: Global, word: &str, place: u32) -> Result<SynNode, NoMemory>
    ensures { IfOk result (λ node. node ≡ terminal.plain_word word.now place) }
{
    if word == "true" {
        return Ok(SynNode::Bool(true));
    }
    if word == "false" {
        return Ok(SynNode::Bool(false));
    }
    let text = Text::from_str(alloc, word)?;
    Ok(SynNode::Field(Name { text, place }))
}

/// A Word: what it says as an aggregate's, and what by itself.
#[tactic(auto, unfolding(cep_reading::specs::Reading::one, crate::specs::Terminal::meaning))]
fn meaning(alloc: Global, cursor: &mut Cursor<'_>) -> Result<(Option<Call>, SynNode), Stop>
    ensures { Reads (one terminal.meaning cursor.old) result cursor.new }
{
    match cursor.next() {
        Some((TokenKind::Word, word, place)) => {
            let how = call_of(word);
            let node = plain_word(alloc, word, place)?;
            cursor.skip();
            Ok((how, node))
        }
        _ => Err(Stop::Expected),
    }
}

/// A Number or a Literal.
#[tactic(auto, unfolding(cep_reading::specs::Reading::one, crate::specs::Terminal::constant))]
fn constant(alloc: Global, cursor: &mut Cursor<'_>) -> Result<SynNode, Stop>
    ensures { Reads (one terminal.constant cursor.old) result cursor.new }
{
    match cursor.next() {
        Some((TokenKind::Number, digits, _)) => {
            let value = number_value(digits);
            cursor.skip();
            Ok(SynNode::Int(value))
        }
        Some((TokenKind::Literal, literal, _)) => {
            let text = content_of(alloc, literal)?;
            cursor.skip();
            Ok(SynNode::Text(text))
        }
        _ => Err(Stop::Expected),
    }
}

#[tactic(auto, unfolding(crate::specs::Reader::count_arguments))]
fn count_arguments(alloc: Global, cursor: &mut Cursor<'_>) -> Result<SynNode, Stop>
    ensures { Reads (spec.count_arguments cursor.old) result cursor.new }
{
    cursor.expect_symbol("(")?;
    let name = stage_name(alloc, cursor)?;
    cursor.expect_symbol(")")?;
    Ok(SynNode::Count(name))
}

#[tactic(auto, unfolding(crate::specs::Reader::edge_arguments))]
fn edge_arguments(alloc: Global, cursor: &mut Cursor<'_>, how: Agg) -> Result<SynNode, Stop>
    ensures { Reads (spec.edge_arguments how cursor.old) result cursor.new }
{
    cursor.expect_symbol("(")?;
    let name = stage_name(alloc, cursor)?;
    cursor.expect_symbol(")")?;
    cursor.expect_symbol(".")?;
    let field = any_word(alloc, cursor)?;
    Ok(SynNode::Of(how, name, field))
}

#[tactic(auto, unfolding(crate::specs::Reader::total_arguments))]
fn total_arguments(alloc: Global, cursor: &mut Cursor<'_>, how: Agg) -> Result<SynNode, Stop>
    ensures { Reads (spec.total_arguments how cursor.old) result cursor.new }
{
    cursor.expect_symbol("(")?;
    let name = stage_name(alloc, cursor)?;
    cursor.expect_symbol(".")?;
    let field = any_word(alloc, cursor)?;
    cursor.expect_symbol(")")?;
    Ok(SynNode::Of(how, name, field))
}

fn arguments(alloc: Global, cursor: &mut Cursor<'_>, call: Call) -> Result<SynNode, Stop>
    ensures { Reads (spec.arguments call cursor.old) result cursor.new }
{
    match call {
        Call::Count => count_arguments(alloc, cursor),
        Call::Edge(how) => edge_arguments(alloc, cursor, how),
        Call::Total(how) => total_arguments(alloc, cursor, how),
    }
}

/// What stands behind a word that may be an aggregate's.
fn behind_word(
    alloc: Global,
    cursor: &mut Cursor<'_>,
    call: Option<Call>,
    plain: SynNode,
) -> Result<SynNode, Stop>
    ensures { Reads (spec.behind_word (call, plain) cursor.old) result cursor.new }
{
    match call {
        None => Ok(plain),
        Some(call) => {
            if cursor.sees_symbol("(") {
                arguments(alloc, cursor, call)
            } else {
                Ok(plain)
            }
        }
    }
}

#[tactic(auto, unfolding(crate::specs::Reader::word_node))]
fn word_node(alloc: Global, cursor: &mut Cursor<'_>) -> Result<SynNode, Stop>
    ensures { Reads (spec.word_node cursor.old) result cursor.new }
{
    let (call, plain) = meaning(alloc, cursor)?;
    behind_word(alloc, cursor, call, plain)
}

#[tactic(auto, unfolding(crate::specs::Reader::leaf_node))]
fn leaf_node(alloc: Global, cursor: &mut Cursor<'_>) -> Result<SynNode, Stop>
    ensures { Reads (spec.leaf_node cursor.old) result cursor.new }
{
    if cursor.sees_any_word() {
        word_node(alloc, cursor)
    } else {
        constant(alloc, cursor)
    }
}

/// A primary without parentheses.
#[tactic(auto, unfolding(crate::specs::Reader::leaf))]
pub fn leaf(alloc: Global, cursor: &mut Cursor<'_>) -> Result<SynExpr, Stop>
    ensures { Reads (spec.leaf cursor.old) result cursor.new }
{
    let place = cursor.place();
    let node = leaf_node(alloc, cursor)?;
    Ok(SynExpr { place, node })
}

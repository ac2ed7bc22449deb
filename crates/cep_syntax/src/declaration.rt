//! Declarations of event types.

ghost use Rattle.std.specs.Prelude.{◌≡◌, ◌∷◌, IfOk};
ghost use Rattle.cep_reading.specs.Reading.{Reads, one};
ghost use Rattle.cep_syntax.specs.Terminal as terminal;
ghost use Rattle.cep_syntax.specs.Reader as spec;

use crate::file::{FieldDecl, FieldDeclList, TypeDecl, TypeDeclList};
use cep_event::{Kind, NoMemory};
use cep_reading::{Cursor, Stop, any_word};
use std::alloc::Global;

#[tactic(auto, unfolding(cep_reading::specs::Reading::one, crate::specs::Terminal::kind_of))]
fn kind_of(cursor: &mut Cursor<'_>) -> Result<Kind, Stop>
    ensures { Reads (one terminal.kind_of cursor.old) result cursor.new }
{
    if cursor.eat_word("int") {
        Ok(Kind::Int)
    } else if cursor.eat_word("text") {
        Ok(Kind::Text)
    } else {
        Err(Stop::Expected)
    }
}

#[tactic(auto, unfolding(crate::specs::Reader::field))]
fn field(alloc: Global, cursor: &mut Cursor<'_>) -> Result<FieldDecl, Stop>
    ensures { Reads (spec.field cursor.old) result cursor.new }
{
    let name = any_word(alloc, cursor)?;
    let kind = kind_of(cursor)?;
    Ok(FieldDecl { name, kind })
}

#[tactic(auto, unfolding(crate::specs::Reader::next_field))]
fn next_field(alloc: Global, cursor: &mut Cursor<'_>) -> Result<FieldDecl, Stop>
    ensures { Reads (spec.next_field cursor.old) result cursor.new }
{
    cursor.expect_symbol(",")?;
    field(alloc, cursor)
}

fn more_fields(alloc: Global, cursor: &mut Cursor<'_>, room: usize) -> Result<FieldDeclList, Stop>
    ensures { Reads (spec.more_fields room cursor.old) result cursor.new }
{
    let mut found = FieldDeclList::new(alloc);
    for _turn in 0..room {
        if !cursor.sees_symbol(",") {
            return Ok(found);
        }
        found.push(next_field(alloc, cursor)?)?;
    }
    Err(Stop::Spent)
}

fn with_first(
    alloc: Global,
    first: FieldDecl,
    more: FieldDeclList,
) -> Result<FieldDeclList, NoMemory>
    ensures { IfOk result (λ all. all ≡ first ∷ more) }
{
    let mut all = Vec::new(alloc);
    all.push(first)?;
    let mut more = more.into_vec();
    all.append(&mut more)?;
    Ok(FieldDeclList::from_vec(all))
}

#[tactic(auto, unfolding(crate::specs::Reader::fields))]
fn fields(alloc: Global, cursor: &mut Cursor<'_>, room: usize) -> Result<FieldDeclList, Stop>
    ensures { Reads (spec.fields room cursor.old) result cursor.new }
{
    if !cursor.sees_any_word() {
        return Ok(FieldDeclList::new(alloc));
    }
    let first = field(alloc, cursor)?;
    let more = more_fields(alloc, cursor, room)?;
    Ok(with_first(alloc, first, more)?)
}

#[tactic(auto, unfolding(crate::specs::Reader::declaration))]
fn declaration(alloc: Global, cursor: &mut Cursor<'_>, room: usize) -> Result<TypeDecl, Stop>
    ensures { Reads (spec.declaration room cursor.old) result cursor.new }
{
    cursor.expect_word("event")?;
    let name = any_word(alloc, cursor)?;
    cursor.expect_symbol("(")?;
    let fields = fields(alloc, cursor, room)?;
    cursor.expect_symbol(")")?;
    cursor.expect_symbol(";")?;
    Ok(TypeDecl { name, fields })
}

pub fn declarations(
    alloc: Global,
    cursor: &mut Cursor<'_>,
    room: usize,
) -> Result<TypeDeclList, Stop>
    ensures { Reads (spec.declarations room cursor.old) result cursor.new }
{
    let mut found = TypeDeclList::new(alloc);
    for _turn in 0..room {
        if !cursor.sees_word("event") {
            return Ok(found);
        }
        found.push(declaration(alloc, cursor, room)?)?;
    }
    Err(Stop::Spent)
}

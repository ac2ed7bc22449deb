//! What stands behind the dots of a pattern, and the stages that it builds.

ghost use Rattle.std.specs.Prelude.{◌≡◌, IfOk};
ghost use Rattle.cep_reading.specs.Reading.{Reads, next_is, one};
ghost use Rattle.cep_syntax.specs.Terminal as terminal;
ghost use Rattle.cep_syntax.specs.Links as links;
ghost use Rattle.cep_syntax.specs.Reader as spec;

use crate::file::{Modifier, ModifierList, OpenKind, Opener, OpenerList};
use crate::modifier::modifier;
use cep_event::NoMemory;
use cep_reading::{Cursor, Name, Stop, any_word, stage_name};
use std::alloc::Global;

/// What comes behind a dot.
#[derive(Debug, Drop)]
pub enum Link {
    Of(Name),
    Mod(Modifier),
    Open(OpenKind, Name),
}

/// The stages that are read, and the one that is being read. It is fresh as long as nothing stands behind its name.
#[derive(Debug, Drop)]
pub struct Building {
    pub done: OpenerList,
    pub current: Opener,
    pub fresh: bool,
}

fn sees_opener(cursor: &Cursor<'_>) -> bool
    ensures { result ≡ next_is terminal.is_opener cursor.now }
{
    cursor.sees_word("next")
        || cursor.sees_word("followedBy")
        || cursor.sees_word("followedByAny")
        || cursor.sees_word("notNext")
        || cursor.sees_word("notFollowedBy")
}

#[tactic(auto, unfolding(cep_reading::specs::Reading::one, crate::specs::Terminal::opener))]
fn opener(cursor: &mut Cursor<'_>) -> Result<OpenKind, Stop>
    ensures { Reads (one terminal.opener cursor.old) result cursor.new }
{
    if cursor.eat_word("next") {
        Ok(OpenKind::Next)
    } else if cursor.eat_word("followedBy") {
        Ok(OpenKind::FollowedBy)
    } else if cursor.eat_word("followedByAny") {
        Ok(OpenKind::FollowedByAny)
    } else if cursor.eat_word("notNext") {
        Ok(OpenKind::NotNext)
    } else if cursor.eat_word("notFollowedBy") {
        Ok(OpenKind::NotFollowedBy)
    } else {
        Err(Stop::Expected)
    }
}

#[tactic(auto, unfolding(crate::specs::Reader::of_name))]
fn of_name(alloc: Global, cursor: &mut Cursor<'_>) -> Result<Name, Stop>
    ensures { Reads (spec.of_name cursor.old) result cursor.new }
{
    cursor.expect_word("of")?;
    cursor.expect_symbol("(")?;
    let name = any_word(alloc, cursor)?;
    cursor.expect_symbol(")")?;
    Ok(name)
}

#[tactic(auto, unfolding(crate::specs::Reader::opener_named))]
fn opener_named(alloc: Global, cursor: &mut Cursor<'_>) -> Result<(OpenKind, Name), Stop>
    ensures { Reads (spec.opener_named cursor.old) result cursor.new }
{
    let how = opener(cursor)?;
    cursor.expect_symbol("(")?;
    let name = stage_name(alloc, cursor)?;
    cursor.expect_symbol(")")?;
    Ok((how, name))
}

#[tactic(auto, unfolding(crate::specs::Reader::of_link))]
fn of_link(alloc: Global, cursor: &mut Cursor<'_>) -> Result<Link, Stop>
    ensures { Reads (spec.of_link cursor.old) result cursor.new }
{
    let name = of_name(alloc, cursor)?;
    Ok(Link::Of(name))
}

#[tactic(auto, unfolding(crate::specs::Reader::open_link))]
fn open_link(alloc: Global, cursor: &mut Cursor<'_>) -> Result<Link, Stop>
    ensures { Reads (spec.open_link cursor.old) result cursor.new }
{
    let (how, name) = opener_named(alloc, cursor)?;
    Ok(Link::Open(how, name))
}

#[tactic(auto, unfolding(crate::specs::Reader::modifier_link))]
fn modifier_link(alloc: Global, cursor: &mut Cursor<'_>, room: usize) -> Result<Link, Stop>
    ensures { Reads (spec.modifier_link room cursor.old) result cursor.new }
{
    let modifier = modifier(alloc, cursor, room)?;
    Ok(Link::Mod(modifier))
}

#[tactic(auto, unfolding(crate::specs::Reader::plain_link))]
fn plain_link(alloc: Global, cursor: &mut Cursor<'_>, room: usize) -> Result<Link, Stop>
    ensures { Reads (spec.plain_link room cursor.old) result cursor.new }
{
    if cursor.sees_word("greedy") {
        return Err(Stop::Greedy);
    }
    if sees_opener(cursor) {
        open_link(alloc, cursor)
    } else {
        modifier_link(alloc, cursor, room)
    }
}

/// `of` comes only directly behind an opener.
pub fn any_link(
    alloc: Global,
    cursor: &mut Cursor<'_>,
    room: usize,
    fresh: bool,
) -> Result<Link, Stop>
    ensures { Reads (spec.any_link room fresh cursor.old) result cursor.new }
{
    if fresh {
        if cursor.sees_word("of") {
            return of_link(alloc, cursor);
        }
    }
    plain_link(alloc, cursor, room)
}

fn opened(alloc: Global, how: OpenKind, name: Name) -> Opener
    ensures { result ≡ links.opened how name }
{
    Opener {
        how,
        name,
        of: None,
        mods: ModifierList::new(alloc),
    }
}

pub fn started(alloc: Global, name: Name) -> Building
    ensures { result ≡ links.started name }
{
    Building {
        done: OpenerList::new(alloc),
        current: opened(alloc, OpenKind::Begin, name),
        fresh: true,
    }
}

pub fn added(alloc: Global, building: Building, link: Link) -> Result<Building, NoMemory>
    ensures { IfOk result (λ made. made ≡ links.added building link) }
{
    let Building {
        mut done,
        mut current,
        fresh: _,
    } = building;
    match link {
        Link::Of(name) => {
            current.of = Some(name);
            Ok(Building {
                done,
                current,
                fresh: false,
            })
        }
        Link::Mod(modifier) => {
            current.mods.push(modifier)?;
            Ok(Building {
                done,
                current,
                fresh: false,
            })
        }
        Link::Open(how, name) => {
            done.push(current)?;
            Ok(Building {
                done,
                current: opened(alloc, how, name),
                fresh: true,
            })
        }
    }
}

pub fn openers_of(building: Building) -> Result<OpenerList, NoMemory>
    ensures { IfOk result (λ openers. openers ≡ links.openers_of building) }
{
    let Building {
        mut done,
        current,
        fresh: _,
    } = building;
    done.push(current)?;
    Ok(done)
}

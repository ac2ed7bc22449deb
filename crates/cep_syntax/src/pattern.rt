//! The pattern.

ghost use Rattle.std.specs.Prelude.{◌≡◌};
ghost use Rattle.cep_reading.specs.Reading.{Reads};
ghost use Rattle.cep_syntax.specs.Links as links;
ghost use Rattle.cep_syntax.specs.Reader as spec;

use crate::file::OpenerList;
use crate::limit::{Limits, ending, limits_of, sees_limit};
use crate::link::{Building, added, any_link, openers_of, started};
use cep_reading::{Cursor, Name, Stop, stage_name};
use std::alloc::Global;

/// The stages behind the first name, and the limits of time, which come last.
fn chain(
    alloc: Global,
    cursor: &mut Cursor<'_>,
    room: usize,
    name: Name,
) -> Result<(Building, Option<Limits>), Stop>
    ensures { Reads (spec.chain room (links.started name) cursor.old) result cursor.new }
{
    let mut building = started(alloc, name);
    for _turn in 0..room {
        if !cursor.sees_symbol(".") {
            return Ok((building, None));
        }
        cursor.expect_symbol(".")?;
        if sees_limit(cursor) {
            let limits = ending(cursor)?;
            return Ok((building, Some(limits)));
        }
        let link = any_link(alloc, cursor, room, building.fresh)?;
        building = added(alloc, building, link)?;
    }
    Err(Stop::Spent)
}

#[tactic(auto, unfolding(crate::specs::Reader::pattern))]
pub fn pattern(
    alloc: Global,
    cursor: &mut Cursor<'_>,
    room: usize,
) -> Result<(OpenerList, Limits), Stop>
    ensures { Reads (spec.pattern room cursor.old) result cursor.new }
{
    cursor.expect_word("pattern")?;
    cursor.expect_word("begin")?;
    cursor.expect_symbol("(")?;
    let name = stage_name(alloc, cursor)?;
    cursor.expect_symbol(")")?;
    let (building, ended) = chain(alloc, cursor, room, name)?;
    cursor.expect_symbol(";")?;
    let openers = openers_of(building)?;
    Ok((openers, limits_of(ended)))
}

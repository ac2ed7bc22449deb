ghost use Rattle.std.specs.Prelude.{◌≡◌, ◌<◌, ◌≤◌, IfSome, length};
ghost use Rattle.csv.specs.Records.{AllText};
ghost use Rattle.cep_records.specs.Causes.{Answers};
ghost use Rattle.cep_records.specs.Numbered.{AreNumbered};
ghost use Rattle.cep_records.specs.Record.{field_at, mark_of, type_named, event_at, event_of_type, event_if, record_of_fields, record_of_line};

use crate::bare::{bare_line, has_open_quote, is_text};
use crate::cause::RowFault;
use crate::number::number_in;
use crate::values::{field_at, values_of};
use cep_event::{Event, EventType, Field, LineRecord};
use cep_plan::Plan;
use cep_rows::{Line, RowCause};
use line_fields::{Fields, read_fields};
use std::alloc::Global;

fn mark_of(fields: &Fields<'_>) -> Result<LineRecord, RowFault>
    ensures { Answers result (mark_of fields.now) }
{
    if fields.len() != 2 {
        return Err(RowFault::Bad(RowCause::FieldCount));
    }
    match number_in(field_at(fields, 1)) {
        Some(time) => Ok(LineRecord::Mark(time)),
        None => Err(RowFault::Bad(RowCause::BadTime)),
    }
}

/// The place of the type with this name.
fn type_named(name: &[u8], types: &[EventType]) -> Option<usize>
    ensures value { result ≡ type_named name.now types.now }
    ensures within { IfSome result (λ place. place < length types.now) }
{
    for (place, declared) in types.iter().enumerate() {
        if declared.name.as_str().as_bytes() == name {
            return Some(place);
        }
    }
    None
}

fn event_of_type(
    alloc: Global,
    row: u32,
    type_no: u16,
    declared: &[Field],
    fields: &Fields<'_>,
) -> Result<LineRecord, RowFault>
    requires text { AllText fields.now }
    requires few { length declared.now ≤ 65535 }
    ensures { Answers result (event_of_type row type_no declared.now fields.now) }
{
    if fields.len() != declared.len() + 2 {
        return Err(RowFault::Bad(RowCause::FieldCount));
    }
    let Some(ts) = number_in(field_at(fields, 1)) else {
        return Err(RowFault::Bad(RowCause::BadTime));
    };
    let values = values_of(alloc, declared, fields)?;
    Ok(LineRecord::Row(Event {
        row,
        ts,
        type_no,
        values,
    }))
}

fn event_of(
    alloc: Global,
    types: &[EventType],
    row: u32,
    fields: &Fields<'_>,
) -> Result<LineRecord, RowFault>
    requires text { AllText fields.now }
    requires numbered { AreNumbered types.now }
    ensures { Answers result (event_if types.now row fields.now (type_named (field_at fields.now 0) types.now)) }
{
    match type_named(field_at(fields, 0), types) {
        Some(place) => event_of_type(
            alloc,
            row,
            place as u16,
            types[place].fields.as_slice(),
            fields,
        ),
        None => Err(RowFault::Bad(RowCause::UnknownType)),
    }
}

fn record_of_fields(
    alloc: Global,
    types: &[EventType],
    row: u32,
    fields: &Fields<'_>,
) -> Result<LineRecord, RowFault>
    requires text { AllText fields.now }
    requires numbered { AreNumbered types.now }
    ensures { Answers result (record_of_fields types.now row fields.now) }
{
    if field_at(fields, 0) == b"@".as_slice() {
        mark_of(fields)
    } else {
        event_of(alloc, types, row, fields)
    }
}

/// The record of the line with this row number, which counts from 1.
///
/// A byte order mark before line 1 and one CR behind a line are not read. A line of no bytes is blank. The fields are those that
/// `csv` reads with its default settings, without headers. A mark is `@,time`. An event is `Type,time` and then a field for each
/// one that the type declares. Times are milliseconds of event time.
///
/// Where more than one cause comes, the first in the order of `RowCause` is answered. The length of a line is not judged here.
/// `NoMemory` may be answered for any line.
#[tactic(auto, unfolding(crate::specs::Record::record_of_line))]
pub fn record_of(
    alloc: Global,
    plan: &Plan,
    line: &Line,
    number: u32,
) -> Result<LineRecord, RowFault>
    requires { AreNumbered plan.now.types }
    ensures { Answers result (record_of_line plan.now.types number line.now) }
{
    let bare = bare_line(number, line.as_slice());
    if bare.is_empty() {
        return Ok(LineRecord::Blank);
    }
    if !is_text(bare) {
        return Err(RowFault::Bad(RowCause::NotText));
    }
    if has_open_quote(bare) {
        return Err(RowFault::Bad(RowCause::OpenQuote));
    }
    let fields = read_fields(alloc, bare)?;
    record_of_fields(alloc, plan.types.as_slice(), number, &fields)
}

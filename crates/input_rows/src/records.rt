ghost use Rattle.std.specs.Prelude.{IfOk};
ghost use Rattle.cep_records.specs.Numbered.{AreNumbered};

use cep_event::{
    Event, EventType, EventTypeList, Field, FieldList, Kind, LineRecord, NoMemory, Text, Value,
    ValueList,
};
use cep_plan::{NegationList, Plan, Skip, StageList};
use cep_records::{RowCause, RowFault, record_of};
use cep_rows::Line;
use std::alloc::Global;
use std::test::Fail;

fn field(alloc: Global, name: &str, number: u16, kind: Kind) -> Result<Field, NoMemory> {
    let name = Text::from_str(alloc, name)?;
    Ok(Field { name, number, kind })
}

// `event A(v int)` and `event T(s text, p int)`
fn types(alloc: Global) -> Result<EventTypeList, NoMemory>
    ensures { IfOk result AreNumbered }
{
    let mut one = FieldList::new(alloc);
    one.push(field(alloc, "v", 0, Kind::Int)?)?;
    let mut two = FieldList::new(alloc);
    two.push(field(alloc, "s", 1, Kind::Text)?)?;
    two.push(field(alloc, "p", 2, Kind::Int)?)?;
    let mut types = EventTypeList::new(alloc);
    types.push(EventType {
        name: Text::from_str(alloc, "A")?,
        fields: one,
    })?;
    types.push(EventType {
        name: Text::from_str(alloc, "T")?,
        fields: two,
    })?;
    Ok(types)
}

fn plan(alloc: Global) -> Result<Plan, NoMemory>
    ensures { IfOk result (λ plan. AreNumbered plan.types) }
{
    let types = types(alloc)?;
    Ok(Plan {
        types,
        stages: StageList::new(alloc),
        negations: NegationList::new(alloc),
        within: None,
        within_gap: None,
        by: None,
        skip: Skip::No,
        select: None,
    })
}

fn record(alloc: Global, row: u32, bytes: &[u8]) -> Result<LineRecord, RowFault> {
    let plan = plan(alloc)?;
    let line = Line::from_vec(Vec::from_slice(alloc, bytes).map_err(|_| NoMemory)?);
    record_of(alloc, &plan, &line, row)
}

fn cause(told: Result<LineRecord, RowFault>) -> Result<Option<RowCause>, NoMemory> {
    match told {
        Ok(_) => Ok(None),
        Err(RowFault::Bad(cause)) => Ok(Some(cause)),
        Err(RowFault::NoMemory) => Err(NoMemory),
    }
}

// A row number, a line, and the cause for which it is refused.
const LINES: [(u32, &[u8], Option<RowCause>); 45] = [
    (1, b"A,1,5", None),
    (2, b"", None),
    (2, b"\r", None),
    (2, b"A,1,5\r", None),
    (2, b"A,1,5\r\r", Some(RowCause::NotText)),
    (2, b"A,1\r,5", Some(RowCause::NotText)),
    (2, b"A\xFF", Some(RowCause::NotText)),
    (1, b"\xEF\xBB\xBF", None),
    (1, b"\xEF\xBB\xBFA,1,5", None),
    (2, b"\xEF\xBB\xBFA,1,5", Some(RowCause::NotText)),
    (1, b"\xEF\xBB\xBF\xEF\xBB\xBFA,1,5", Some(RowCause::NotText)),
    (2, b"\"\xFF", Some(RowCause::NotText)),
    (2, b"\"", Some(RowCause::OpenQuote)),
    (2, b"A,2,\"5", Some(RowCause::OpenQuote)),
    (2, b"E,2,\"5", Some(RowCause::OpenQuote)),
    (2, b"E,2,5", Some(RowCause::UnknownType)),
    (2, b"a,2,5", Some(RowCause::UnknownType)),
    (2, b"E", Some(RowCause::UnknownType)),
    (2, b" @,2", Some(RowCause::UnknownType)),
    (2, b"A", Some(RowCause::FieldCount)),
    (2, b"A,2", Some(RowCause::FieldCount)),
    (2, b"A,x", Some(RowCause::FieldCount)),
    (2, b"A,2,5,", Some(RowCause::FieldCount)),
    (2, b"@", Some(RowCause::FieldCount)),
    (2, b"@,1,2", Some(RowCause::FieldCount)),
    (2, b"@,x", Some(RowCause::BadTime)),
    (2, b"@,", Some(RowCause::BadTime)),
    (2, b"A,2x,5", Some(RowCause::BadTime)),
    (2, b"A,,x", Some(RowCause::BadTime)),
    (2, b"A,9223372036854775808,5", Some(RowCause::BadTime)),
    (2, b"A,2,", Some(RowCause::BadNumber(1))),
    (2, b"A,2,\"\"", Some(RowCause::BadNumber(1))),
    (2, b"A,2,+", Some(RowCause::BadNumber(1))),
    (2, b"A,2,--5", Some(RowCause::BadNumber(1))),
    (2, b"A,2,+-5", Some(RowCause::BadNumber(1))),
    (2, b"A,2, 5", Some(RowCause::BadNumber(1))),
    (2, b"A,2,5.", Some(RowCause::BadNumber(1))),
    (2, b"A,2,9223372036854775808", Some(RowCause::BadNumber(1))),
    (2, b"A,2,-9223372036854775809", Some(RowCause::BadNumber(1))),
    (2, b"A,2,92233720368547758070", Some(RowCause::BadNumber(1))),
    (2, b"T,2,\"x,y\",", Some(RowCause::BadNumber(2))),
    (2, b"T,2,x,y", Some(RowCause::BadNumber(2))),
    (2, b"\"A\",\"2\",\"5\"", None),
    (2, b"\"@\",\"2\"", None),
    (2, b"T,2,,5", None),
];

#[test]
fn lines_are_refused_for_the_first_cause(rt: HostRuntime) -> Result<(), Fail> {
    for (row, bytes, want) in LINES.iter() {
        let got = cause(record(rt.alloc(), *row, bytes))?;
        assert!(rt; got == *want);
    }
    Ok(())
}

// A mark, and its time.
const MARKS: [(&[u8], i64); 9] = [
    (b"@,0", 0),
    (b"@,-0", 0),
    (b"@,+5", 5),
    (b"@,-5", -5),
    (b"@,0000000000000000000000007", 7),
    (b"@,9223372036854775807", 9223372036854775807),
    (b"@,+9223372036854775807", 9223372036854775807),
    (b"@,-9223372036854775808", -9223372036854775808),
    (b"@,\"12\"\r", 12),
];

#[test]
fn marks_have_their_times(rt: HostRuntime) -> Result<(), Fail> {
    for (bytes, want) in MARKS.iter() {
        match record(rt.alloc(), 2, bytes) {
            Ok(LineRecord::Mark(time)) => assert_eq!(rt; time, *want),
            _ => return Err(Fail::from("a mark")),
        }
    }
    Ok(())
}

fn event(alloc: Global, ts: i64, text: &str, number: i64) -> Result<Event, NoMemory> {
    let mut values = ValueList::new(alloc);
    values.push(Value::Text(Text::from_str(alloc, text)?))?;
    values.push(Value::Int(number))?;
    Ok(Event {
        row: 7,
        ts,
        type_no: 1,
        values,
    })
}

// A line of the second type, and its time and values.
const EVENTS: [(&[u8], i64, &str, i64); 7] = [
    (b"T,1,x,5", 1, "x", 5),
    (b"T,-1,,-7", -1, "", -7),
    (b"T,1,\"\",+7", 1, "", 7),
    (b"T,1,\"x\"\"y\",3", 1, "x\"y", 3),
    (b"T,1,\"x,y\",\"6\"\r", 1, "x,y", 6),
    (b"T,1, x ,5", 1, " x ", 5),
    (b"T,1,\xC3\xA9,5", 1, "é", 5),
];

#[test]
fn events_have_their_values(rt: HostRuntime) -> Result<(), Fail> {
    for (bytes, ts, text, number) in EVENTS.iter() {
        let want = event(rt.alloc(), *ts, text, *number)?;
        match record(rt.alloc(), 7, bytes) {
            Ok(LineRecord::Row(got)) => assert!(rt; got.same(&want)),
            _ => return Err(Fail::from("an event")),
        }
    }
    Ok(())
}

// `T,1,`, so many letters, and `,5`
fn long_line(alloc: Global, count: usize) -> Result<Vec<u8>, NoMemory> {
    let mut bytes = Vec::from_slice(alloc, b"T,1,").map_err(|_| NoMemory)?;
    for _ in 0..count {
        bytes.push(b'x')?;
    }
    bytes.extend_from_slice(b",5")?;
    Ok(bytes)
}

#[test]
fn the_longest_line_is_read(rt: HostRuntime) -> Result<(), Fail> {
    let bytes = long_line(rt.alloc(), 65530)?;
    assert_eq!(rt; bytes.len(), 65536);
    match record(rt.alloc(), 2, bytes.as_slice()) {
        Ok(LineRecord::Row(event)) => assert_eq!(rt; event.values.len(), 2),
        _ => return Err(Fail::from("an event")),
    }
    assert_eq!(rt; RowCause::LineTooLong.number(), 1);
    assert_eq!(rt; RowCause::BadNumber(9).number(), 7);
    Ok(())
}

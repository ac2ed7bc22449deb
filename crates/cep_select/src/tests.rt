use crate::{late_row, row_of, rows_of};
use cep_event::{
    ByteList, Event, EventType, EventTypeList, Field, FieldList, Kind, NoMemory, Text, Value,
    ValueList,
};
use cep_plan::{
    Agg, Cond, Contiguity, Expr, ExprList, Item, ItemList, NegationList, PartList, Plan, Skip,
    Stage, StageList, Taken, TakenList,
};
use std::alloc::Global;
use std::test::Fail;

fn field(alloc: Global, name: &str, number: u16, kind: Kind) -> Result<Field, NoMemory> {
    let name = Text::from_str(alloc, name)?;
    Ok(Field { name, number, kind })
}

// `event T(s text, p int)`
fn types(alloc: Global) -> Result<EventTypeList, NoMemory> {
    let name = Text::from_str(alloc, "T")?;
    let mut fields = FieldList::new(alloc);
    fields.push(field(alloc, "s", 0, Kind::Text)?)?;
    fields.push(field(alloc, "p", 1, Kind::Int)?)?;
    let mut types = EventTypeList::new(alloc);
    types.push(EventType { name, fields })?;
    Ok(types)
}

fn stage(alloc: Global, name: &str) -> Result<Stage, NoMemory> {
    let name = Text::from_str(alloc, name)?;
    Ok(Stage {
        name,
        of: None,
        cond: Cond {
            parts: PartList::new(alloc),
        },
        until: None,
        first: Contiguity::Any,
        inner: Contiguity::Relaxed,
        min: 1,
        max: None,
        optional: true,
    })
}

fn stages(alloc: Global, first: &str, second: &str) -> Result<StageList, NoMemory> {
    let mut stages = StageList::new(alloc);
    stages.push(stage(alloc, first)?)?;
    stages.push(stage(alloc, second)?)?;
    Ok(stages)
}

fn plan(alloc: Global, stages: StageList, select: Option<ExprList>) -> Result<Plan, NoMemory> {
    let types = types(alloc)?;
    Ok(Plan {
        types,
        stages,
        negations: NegationList::new(alloc),
        within: None,
        within_gap: None,
        by: None,
        skip: Skip::No,
        select,
    })
}

fn values(alloc: Global, text: &str, number: i64) -> Result<ValueList, NoMemory> {
    let mut values = ValueList::new(alloc);
    values.push(Value::Text(Text::from_str(alloc, text)?))?;
    values.push(Value::Int(number))?;
    Ok(values)
}

fn taken(stage: u16, row: u32, values: ValueList) -> Taken {
    Taken {
        stage,
        position: row,
        event: Event {
            row,
            ts: 0,
            type_no: 0,
            values,
        },
    }
}

fn list_of(alloc: Global, entries: &[(u16, u32)]) -> Result<TakenList, NoMemory> {
    let mut list = TakenList::new(alloc);
    for (stage, row) in entries {
        list.push(taken(*stage, *row, ValueList::new(alloc)))?;
    }
    Ok(list)
}

fn row(alloc: Global, plan: &Plan, is_match: bool, list: TakenList) -> Result<ByteList, NoMemory> {
    if plan.stages.len() > 65536 || list.len() > 65536 {
        return Err(NoMemory);
    }
    if is_match {
        row_of(alloc, plan, &Item::Match(list))
    } else {
        row_of(alloc, plan, &Item::Timeout(list))
    }
}

// Whether it is a match, the names of two stages, the stage and the row of each event, and the row that is printed.
const NAMED: [(bool, &str, &str, &[(u16, u32)], &str); 8] = [
    (true, "a", "b", &[(0, 1), (1, 2)], "match,a=1,b=2\n"),
    (
        false,
        "a",
        "b",
        &[(0, 1), (1, 2), (1, 3)],
        "timeout,a=1,b=2 3\n",
    ),
    (true, "a", "b", &[(0, 4294967295)], "match,a=4294967295\n"),
    (true, "a", "b", &[(1, 30)], "match,b=30\n"),
    (
        true,
        "a",
        "b",
        &[(0, 1), (1, 2), (0, 3)],
        "match,a=1 3,b=2\n",
    ),
    (true, "a", "b", &[], "match\n"),
    (
        true,
        "a,b",
        "c",
        &[(0, 1), (0, 2), (1, 3)],
        "match,\"a,b=1 2\",c=3\n",
    ),
    (false, "a", "x\"y", &[(1, 5)], "timeout,\"x\"\"y=5\"\n"),
];

fn named_row(
    alloc: Global,
    is_match: bool,
    first: &str,
    second: &str,
    entries: &[(u16, u32)],
) -> Result<ByteList, NoMemory> {
    let stages = stages(alloc, first, second)?;
    let plan = plan(alloc, stages, None)?;
    row(alloc, &plan, is_match, list_of(alloc, entries)?)
}

#[test]
fn rows_name_the_stages_that_have_events(rt: HostRuntime) -> Result<(), Fail> {
    for (is_match, first, second, entries, want) in NAMED.iter() {
        let row = named_row(rt.alloc(), *is_match, first, second, entries)?;
        assert!(rt; row.as_slice() == want.as_bytes(), "{want}");
    }
    Ok(())
}

// `select last("a").s, last("a").p, count("a"), min("b".p)`
fn select(alloc: Global) -> Result<ExprList, NoMemory> {
    let mut select = ExprList::new(alloc);
    select.push(Expr::Of(Agg::Last, 0, 0))?;
    select.push(Expr::Of(Agg::Last, 0, 1))?;
    select.push(Expr::Count(0))?;
    select.push(Expr::Of(Agg::Min, 1, 1))?;
    Ok(select)
}

// A text and a number, and the row that is printed.
const SELECTED: [(&str, i64, &str); 7] = [
    ("IBM", 20, "match,IBM,20,1,\n"),
    ("", 0, "match,,0,1,\n"),
    (
        "x,y",
        -9223372036854775808,
        "match,\"x,y\",-9223372036854775808,1,\n",
    ),
    (
        "x\"y",
        9223372036854775807,
        "match,\"x\"\"y\",9223372036854775807,1,\n",
    ),
    ("a\nb", -1, "match,\"a\nb\",-1,1,\n"),
    ("a\rb", 1, "match,\"a\rb\",1,1,\n"),
    (" é ", 7, "match, é ,7,1,\n"),
];

fn selected_row(
    alloc: Global,
    is_match: bool,
    text: &str,
    number: i64,
) -> Result<ByteList, NoMemory> {
    let mut list = TakenList::new(alloc);
    list.push(taken(0, 9, values(alloc, text, number)?))?;
    let stages = stages(alloc, "a", "b")?;
    let select = select(alloc)?;
    let plan = plan(alloc, stages, Some(select))?;
    row(alloc, &plan, is_match, list)
}

#[test]
fn a_match_shows_the_values_that_are_selected(rt: HostRuntime) -> Result<(), Fail> {
    for (text, number, want) in SELECTED.iter() {
        let row = selected_row(rt.alloc(), true, text, *number)?;
        assert!(rt; row.as_slice() == want.as_bytes(), "{want}");
    }
    let row = selected_row(rt.alloc(), false, "IBM", 20)?;
    assert!(rt; row.as_slice() == b"timeout,a=9\n".as_slice());
    Ok(())
}

fn one_row(alloc: Global) -> Result<ByteList, NoMemory> {
    let stages = stages(alloc, "a", "b")?;
    let plan = plan(alloc, stages, None)?;
    let items = ItemList::new(alloc);
    if plan.stages.len() > 65536 {
        return Err(NoMemory);
    }
    rows_of(alloc, &plan, &items)
}

#[test]
fn late_rows_have_their_number(rt: HostRuntime) -> Result<(), Fail> {
    let row = late_row(rt.alloc(), 3)?;
    assert!(rt; row.as_slice() == b"late,3\n".as_slice());
    let row = late_row(rt.alloc(), 4294967295)?;
    assert!(rt; row.as_slice() == b"late,4294967295\n".as_slice());
    assert!(rt; one_row(rt.alloc())?.is_empty());
    Ok(())
}

//! What an engine holds and hands out, tick by tick.
use cep_engine::{Engine, has_room};
use cep_event::{Event, NoMemory, Text, Value, ValueList};
use cep_plan::{Item, ItemList};
use nfa_compile::is_compilable;
use pattern_file::plan_in;
use shared_buffer::Held;
use std::alloc::Global;
use std::process::Abort;
use std::test::Fail;

const TRADES: &str = "event Trade(sym text, price int);
pattern begin(\"a\").of(Trade).where(price > 10)
.followedBy(\"b\").of(Trade).where(sym == last(\"a\").sym && price > last(\"a\").price).oneOrMore()
.followedBy(\"c\").of(Trade).where(sym == last(\"a\").sym && price < last(\"a\").price);
skip past_last;";

const PAIRS: &str =
    "event Trade(sym text, price int); pattern begin(\"a\").of(Trade).times(2).consecutive();";

fn engine(rt: &impl Abort, alloc: Global, pattern: &str) -> Result<Engine, Fail> {
    let plan = plan_in(alloc, pattern.as_bytes())?;
    assert!(rt; is_compilable(&plan));
    assert!(rt; has_room(&plan));
    Ok(Engine::new(alloc, plan)?)
}

fn trade(alloc: Global, row: u32, symbol: &str, price: i64) -> Result<Event, NoMemory> {
    let mut values = ValueList::new(alloc);
    values.push(Value::Text(Text::from_str(alloc, symbol)?))?;
    values.push(Value::Int(price))?;
    Ok(Event {
        row,
        ts: i64::from(row) * 1000,
        type_no: 0,
        values,
    })
}

fn take(
    rt: &impl Abort,
    alloc: Global,
    engine: &mut Engine,
    symbol: &str,
    price: i64,
) -> Result<(), Fail> {
    let row = engine.count();
    assert!(rt; row < u32::MAX);
    let event = trade(alloc, row, symbol, price)?;
    assert!(rt; engine.may_come(event.ts));
    engine.event(event)?;
    Ok(())
}

/// Events, nodes and edges after each trade. The match lets all starts up to its end go.
#[test]
fn what_trades_hold(rt: HostRuntime) -> Result<(), Fail> {
    let alloc = rt.alloc();
    let mut engine = engine(&rt, alloc, TRADES)?;
    let rows: [(&str, i64, u64, u64, u64); 5] = [
        ("IBM", 20, 1, 1, 1),
        ("HP", 5, 1, 1, 1),
        ("IBM", 25, 2, 3, 3),
        ("IBM", 30, 3, 5, 6),
        ("IBM", 15, 0, 0, 0),
    ];
    for (symbol, price, events, nodes, edges) in rows {
        take(&rt, alloc, &mut engine, symbol, price)?;
        let held = Held {
            events,
            nodes,
            edges,
        };
        assert_eq!(rt; engine.held(), held);
    }
    Ok(())
}

// Where the matches begin and end.
fn are_pairs(items: &ItemList, pairs: &[(u32, u32)]) -> bool {
    let items = items.as_slice();
    if items.len() != pairs.len() {
        return false;
    }
    for place in 0..items.len() {
        let Item::Match(list) = &items[place] else {
            return false;
        };
        match list.as_slice() {
            [first, last] if (first.position, last.position) == pairs[place] => {}
            _ => return false,
        }
    }
    true
}

/// Items are handed out once.
#[test]
fn items_are_handed_out_once(rt: HostRuntime) -> Result<(), Fail> {
    let alloc = rt.alloc();
    let mut engine = engine(&rt, alloc, PAIRS)?;
    for price in 1..4 {
        take(&rt, alloc, &mut engine, "IBM", price)?;
    }
    assert!(rt; are_pairs(&engine.items(), &[(0, 1), (1, 2)]));
    assert!(rt; engine.items().is_empty());
    assert_eq!(rt; engine.count(), 3);
    Ok(())
}

const LONG: &str =
    "event A(); event B(); pattern begin(\"a\").of(A).followedBy(\"b\").of(B).oneOrMore();";

/// A loop of a thousand events is held once, although each of them ends a match.
#[test]
fn a_long_loop_is_held_once(rt: HostRuntime) -> Result<(), Fail> {
    let alloc = rt.alloc();
    let mut engine = engine(&rt, alloc, LONG)?;
    let mut told = 0usize;
    for row in 0..1001u32 {
        let event = Event {
            row,
            ts: i64::from(row),
            type_no: if row == 0 { 0 } else { 1 },
            values: ValueList::new(alloc),
        };
        assert!(rt; engine.count() < u32::MAX);
        assert!(rt; engine.may_come(event.ts));
        engine.event(event)?;
        told = told.saturating_add(engine.items().len());
    }
    let held = Held {
        events: 1001,
        nodes: 1001,
        edges: 1001,
    };
    assert_eq!(rt; engine.held(), held);
    assert_eq!(rt; told, 1000);
    Ok(())
}

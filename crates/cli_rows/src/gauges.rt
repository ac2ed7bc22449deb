use crate::statuses::{Case, gauged_over};
use cep_cli::MemoryGauge;
use cep_event::{ByteList, CallList, NoMemory};
use cep_outside::{MemorySink, MemorySource};
use std::test::Fail;

/// How many events, nodes and edges are held.
type Sizes = (u64, u64, u64);

const TRADES: Case = Case {
    name: "trades",
    words: &["run", "p", "--header"],
    file: b"event Trade(sym text, price int);
pattern begin(\"a\").of(Trade).where(price > 10)
 .followedBy(\"b\").of(Trade)
 .where(sym == last(\"a\").sym && price > last(\"a\").price).oneOrMore()
 .followedBy(\"c\").of(Trade)
 .where(sym == last(\"a\").sym && price < last(\"a\").price).within(60000);
skip past_last;
select last(\"a\").sym, count(\"b\"), max(\"b\".price), last(\"c\").price;
",
    input: b"type,ts,sym,price\nTrade,1000,IBM,20\nTrade,2000,HP,5\nTrade,3000,IBM,25\nTrade,4000,IBM,30\nTrade,5000,IBM,15\n",
    unread: 0,
    room: 99,
    status: 0,
    output: b"match,IBM,2,30,15\n",
    notes: b"",
};

const PAIR: Case = Case {
    name: "marks",
    words: &["run", "p"],
    file: b"event A(); event B(); pattern begin(\"a\").of(A).next(\"b\").of(B);",
    input: b"A,1\n@,1\n@,1\nA,2\n@,3\nB,4\n",
    output: b"match,a=4,b=6\n",
    ..TRADES
};

// The types of the generated rows are B, A, B, A, B, B.
const LOADED: Case = Case {
    name: "a load",
    words: &["load", "p", "--count", "6"],
    input: b"no row\n",
    output: b"rows 6\nlate 0\nmatches 2\ntimeouts 0\ngreatest held 1\n",
    ..PAIR
};

const CHECKED: Case = Case {
    name: "a check",
    words: &["check", "p"],
    output: b"event A();\nevent B();\npattern begin(\"a\").of(A).next(\"b\").of(B);\n",
    ..PAIR
};

const REFUSED: Case = Case {
    name: "a refused row",
    input: b"A,1\n@,1\nA,x\nA,2\n",
    status: 5,
    output: b"",
    notes: b"cep: row 3 refused: cause 6\n",
    ..PAIR
};

// Whether the call ends and prints as it should, and the gauge is shown these sizes.
fn shows(rt: &HostRuntime, case: &Case, expected: &[Sizes]) -> Result<bool, NoMemory> {
    let alloc = rt.alloc();
    let bytes = ByteList::from_slice(alloc, case.input)?;
    let mut input = MemorySource::new(bytes, 4096, CallList::new(alloc));
    let mut output = MemorySink::new(alloc, case.room, 4096, CallList::new(alloc))?;
    let mut notes = MemorySink::new(alloc, 100, 100, CallList::new(alloc))?;
    let mut gauge = MemoryGauge::new(alloc);
    let status = gauged_over(rt, case, &mut input, &mut output, &mut notes, &mut gauge)?;
    let seen = gauge.seen().as_slice();
    Ok(
        status == case.status
            && output.taken() == case.output
            && notes.taken() == case.notes
            && seen.len() == expected.len()
            && seen.iter().zip(expected).all(|(held, sizes)| (held.events, held.nodes, held.edges)
                == *sizes),
    )
}

#[test]
fn the_gauge_is_shown_what_is_held_after_each_tick(rt: HostRuntime) -> Result<(), Fail> {
    let after_each = [(1, 1, 1), (1, 1, 1), (2, 3, 3), (3, 5, 6), (0, 0, 0)];
    assert!(rt; shows(&rt, &TRADES, &after_each)?);
    Ok(())
}

// A mark that doesn't rise is no tick.
#[test]
fn marks_are_ticks_too(rt: HostRuntime) -> Result<(), Fail> {
    let after_each = [(1, 1, 1), (1, 1, 1), (1, 1, 1), (1, 1, 1), (0, 0, 0)];
    assert!(rt; shows(&rt, &PAIR, &after_each)?);
    Ok(())
}

#[test]
fn a_load_shows_its_own_run_and_a_check_nothing(rt: HostRuntime) -> Result<(), Fail> {
    let after_each = [
        (0, 0, 0),
        (1, 1, 1),
        (0, 0, 0),
        (1, 1, 1),
        (0, 0, 0),
        (0, 0, 0),
    ];
    assert!(rt; shows(&rt, &LOADED, &after_each)?);
    assert!(rt; shows(&rt, &CHECKED, &[])?);
    Ok(())
}

#[test]
fn a_refused_row_shows_the_ticks_of_the_rows_before(rt: HostRuntime) -> Result<(), Fail> {
    assert!(rt; shows(&rt, &REFUSED, &[(1, 1, 1), (1, 1, 1)])?);
    Ok(())
}
